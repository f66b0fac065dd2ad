// A scalar as the walks through a text read it at a place.
ghost use Rattle.std.specs.Prelude.{◌≡◌, ◌≤◌, ◌<◌, ◌+◌, ◌*◌, ◌/◌, ◌%◌, eqb, length};
ghost use Rattle.text.specs.Class.Code.{class_number, profile_of};
ghost use Rattle.text.specs.Scalar.{packed_as, scalar_here};

use super::class::{Class, Profile, class_of, in_pictographs};
use super::utf8::{byte_at, four_bytes, is_tail, three_bytes, two_bytes};
use super::width::width;

// A scalar's length in bytes, 8 times its class and 128 times its width: one number, which a function gives in a register. Three fields
// are given in memory, which takes a walk half as long again.
#[derive(Clone, Copy, PartialEq, Eq)]
pub struct Scalar(u32);

const PRINTABLE: u32 = 1 + 8 * (Class::Other as u32) + 128;

const INDICATOR: u32 = 4 + 8 * (Class::RegionalIndicator as u32) + 128;

impl Scalar {
    pub(crate) fn new(len: u32, class: Class, width: u32) -> Scalar
        requires { (len ≤ 4) × (width ≤ 2) }
        ensures { result.0 ≡ len + 8 * (class_number class + 16 * width) }
    {
        Scalar(len + 8 * (class as u32 + 16 * width))
    }

    // Its length in bytes.
    pub fn len(self) -> usize
        ensures { result ≡ self.0 % 8 }
    {
        (self.0 % 8) as usize
    }

    pub fn class(self) -> Class
        requires { self.0 / 8 % 16 ≤ 12 }
        ensures { class_number result ≡ self.0 / 8 % 16 }
    {
        match self.0 / 8 % 16 {
            0 => Class::Cr,
            1 => Class::Lf,
            2 => Class::Control,
            3 => Class::Extend,
            4 => Class::Zwj,
            5 => Class::L,
            6 => Class::V,
            7 => Class::T,
            8 => Class::Lv,
            9 => Class::Lvt,
            10 => Class::RegionalIndicator,
            11 => Class::Other,
            12 => Class::ExtendedPictographic,
            _ => unreachable!(),
        }
    }

    // Is it one of U+0020 to U+007E?
    pub(crate) fn is_printable(self) -> bool
        ensures { result ≡ eqb self.0 217 }
    {
        self.0 == PRINTABLE
    }

    // Is it a regional indicator of four bytes?
    pub(crate) fn is_indicator(self) -> bool
        ensures { result ≡ eqb self.0 212 }
    {
        self.0 == INDICATOR
    }

    // Its width in columns.
    pub fn width(self) -> usize
        ensures { result ≡ self.0 / 128 }
    {
        (self.0 / 128) as usize
    }
}

// The scalar x of so many bytes. Few texts come here: the common ranges are told before.
#[inline(never)]
fn pack(profile: Profile, len: u32, x: u32) -> Scalar
    requires { len ≤ 4 }
    ensures { result.0 ≡ packed_as (profile_of profile) len x }
{
    let c = class_of(profile, x);
    let w = width(profile, x) as u32;
    Scalar::new(len, c, w)
}

// The same for each length, the common ranges told first.
fn pack_one(profile: Profile, x: u32) -> Scalar
    requires { x < 0x80 }
    ensures { result.0 ≡ packed_as (profile_of profile) 1 x }
{
    if (0x20 <= x) & (x <= 0x7E) {
        return Scalar::new(1, Class::Other, 1);
    }
    if x == 0x0D {
        return Scalar::new(1, Class::Cr, 0);
    }
    if x == 0x0A {
        return Scalar::new(1, Class::Lf, 0);
    }
    Scalar::new(1, Class::Control, 0)
}

fn pack_two(profile: Profile, x: u32) -> Scalar
    ensures { result.0 ≡ packed_as (profile_of profile) 2 x }
{
    if (0xA0 <= x) & (x <= 0x2FF) {
        return Scalar::new(2, Class::Other, 1);
    }
    if (0x370 <= x) & (x <= 0x482) {
        return Scalar::new(2, Class::Other, 1);
    }
    if (0x300 <= x) & (x <= 0x36F) {
        return Scalar::new(2, Class::Extend, 0);
    }
    pack(profile, 2, x)
}

fn pack_three(profile: Profile, x: u32) -> Scalar
    ensures { result.0 ≡ packed_as (profile_of profile) 3 x }
{
    if (0x3041 <= x) & (x <= 0xA4CF) {
        return Scalar::new(3, Class::Other, 2);
    }
    if (0xAC00 <= x) & (x <= 0xD7A3) {
        if (x - 0xAC00) % 28 == 0 {
            return Scalar::new(3, Class::Lv, 2);
        }
        return Scalar::new(3, Class::Lvt, 2);
    }
    if (0x1100 <= x) & (x <= 0x115F) {
        return Scalar::new(3, Class::L, 2);
    }
    if (0x1160 <= x) & (x <= 0x11A7) {
        return Scalar::new(3, Class::V, 0);
    }
    if (0x11A8 <= x) & (x <= 0x11FF) {
        return Scalar::new(3, Class::T, 0);
    }
    pack(profile, 3, x)
}

fn pack_four(profile: Profile, x: u32) -> Scalar
    ensures { result.0 ≡ packed_as (profile_of profile) 4 x }
{
    if (0x1F1E6 <= x) & (x <= 0x1F1FF) {
        return Scalar::new(4, Class::RegionalIndicator, 1);
    }
    if in_pictographs(x) {
        return Scalar::new(4, Class::ExtendedPictographic, 2);
    }
    if (0x1F650 <= x) & (x <= 0x1F8FF) {
        return Scalar::new(4, Class::Other, 1);
    }
    pack(profile, 4, x)
}

// The scalar at a place, where one begins there. It is drawn into each walk, which a call for every scalar slows.
#[inline(always)]
pub fn scalar_at(profile: Profile, s: &[u8], at: usize) -> Option<Scalar>
    requires { at < length s.now }
    ensures { result ≡ scalar_here (profile_of profile) s.now at }
{
    let a = s[at] as u32;
    if a <= 0x7F {
        return Some(pack_one(profile, a));
    }
    let b = byte_at(s, at + 1);
    if !is_tail(b) {
        return None;
    }
    if a <= 0xDF {
        let x = two_bytes(a, b)?;
        return Some(pack_two(profile, x));
    }
    let c = byte_at(s, at + 2);
    if !is_tail(c) {
        return None;
    }
    if a <= 0xEF {
        let x = three_bytes(a, b, c)?;
        return Some(pack_three(profile, x));
    }
    let x = four_bytes(a, b, c, byte_at(s, at + 3))?;
    Some(pack_four(profile, x))
}
