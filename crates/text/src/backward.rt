// Grapheme clusters from the end of a text backward: where the last one begins, and what erasing it leaves.
ghost use Rattle.std.specs.Prelude.{◌≡◌, ◌%◌, ◌/◌, ◌≤◌, ◌<◌, reverse, ltb, length, get_or, drop};
ghost use Rattle.text.specs.Utf8.{decode};
ghost use Rattle.text.specs.Class.Code.{class_number, profile_of};
ghost use Rattle.text.specs.Utf8.Code.{run_of, sequence_or_zero, size, whole};
ghost use Rattle.text.specs.Class.{is_control};
ghost use Rattle.text.specs.Scalar.{packed_at};
ghost use Rattle.text.specs.Backward.{back, ScalarStart, odd_to, pictograph_to, joins_at, without_last, KnownPlace, indicator_at, ends_in_pair, between_indicators, after_zwj, needs_context, known_before, pair_before, Erased};

use super::class::{Class, Profile, is_control};
use super::rules::Before;
use super::scalar::scalar_at;
use super::segmentation::never_joins_before;
use super::utf8::{byte_at, decode, is_tail};

// Where a text ends after an erasure, and its known place: one up to there at which the rules go on as at a text's start, whatever stands
// before it. A look back stops there, so that erasures take no longer the longer the text is.
#[derive(Clone, Copy)]
pub struct Erasure {
    pub at: usize,
    pub known: usize,
}

// The start of the scalar that ends at q.
fn scalar_start(s: &[u8], q: usize) -> usize
    requires { q ≤ length s.now }
    ensures { result ≡ back s.now q }
{
    let mut i = q;
    while 0 < i {
        let j = i - 1;
        let b = byte_at(s, j);
        if is_tail(b) {
            i = j;
        } else {
            return j;
        }
    }
    0
}

// Is the byte at a place below 80, or missing?
fn is_ascii(t: &[u8], at: usize) -> bool
    ensures { result ≡ ltb (get_or t.now at 0) 0x80 }
{
    byte_at(t, at) < 0x80
}

// Is the scalar at a place a control, or none there?
fn begins_with_control(t: &[u8], at: usize) -> bool
    requires { at < length t.now }
    ensures { result ≡ is_control (sequence_or_zero (decode (drop at t.now))).code }
{
    match decode(t, at) {
        Some(u) => is_control(u.code),
        None => true,
    }
}

// A valid text and its known place.
#[derive(Clone, Copy)]
pub(crate) struct Written<'a> {
    pub profile: Profile,
    pub text: &'a [u8],
    pub known: usize,
}

impl<'a> Written<'a> {
    // The class of the scalar at a place; where there is none, one that joins nothing.
    fn class_at(self, at: usize) -> Class
        requires { at < length self.text.now }
        ensures { class_number result ≡ packed_at (profile_of self.entry.profile) self.entry.text.now at / 8 % 16 }
    {
        match scalar_at(self.profile, self.text, at) {
            Some(v) => v.class(),
            None => Class::Cr,
        }
    }

    // Does a regional indicator stand at a place?
    fn is_indicator(self, at: usize) -> bool
        requires { at < length self.text.now }
        ensures { result ≡ indicator_at (profile_of self.entry.profile) self.entry.text.now at }
    {
        match scalar_at(self.profile, self.text, at) {
            Some(v) => v.is_indicator(),
            None => false,
        }
    }

    // GB12, GB13: does an odd number of regional indicators end at q, the start of a scalar of the text?
    fn odd_to(self, q: usize) -> bool
        requires { (q ≤ length self.text.now) × ScalarStart self.text.now q × KnownPlace (profile_of self.profile) self.text.now self.known }
        ensures { result ≡ odd_to (profile_of self.entry.profile) self.entry.text.now q }
    {
        let mut odd = false;
        let mut i = q;
        while 4 <= i {
            if i == self.known {
                return odd;
            }
            if self.is_indicator(i - 4) {
                odd = !odd;
                i -= 4;
            } else {
                return odd;
            }
        }
        odd
    }

    // GB11: do an Extended_Pictographic and any number of Extend end at q, the start of a scalar of the text?
    fn pictograph_to(self, q: usize) -> bool
        requires { (q ≤ length self.text.now) × ScalarStart self.text.now q × KnownPlace (profile_of self.profile) self.text.now self.known }
        ensures { result ≡ pictograph_to (profile_of self.entry.profile) self.entry.text.now q }
    {
        let mut i = q;
        while 0 < i {
            if i == self.known {
                return false;
            }
            let j = scalar_start(self.text, i);
            let c = self.class_at(j);
            if c == Class::Extend {
                i = j;
            } else {
                return c == Class::ExtendedPictographic;
            }
        }
        false
    }

    // Is there no boundary at q, the start of a scalar of the text?
    fn joins_at(self, q: usize) -> bool
        requires { (q < length self.text.now) × ScalarStart self.text.now q × KnownPlace (profile_of self.profile) self.text.now self.known }
        ensures { result ≡ joins_at (profile_of self.entry.profile) self.entry.text.now q }
    {
        if q == 0 {
            return false;
        }
        let j = scalar_start(self.text, q);
        let p = self.class_at(j);
        let c = self.class_at(q);
        // GB12, GB13: the number of regional indicators tells
        if (p == Class::RegionalIndicator) & (c == Class::RegionalIndicator) {
            return self.odd_to(q);
        }
        // GB11: what stands before the ZWJ tells
        if (p == Class::Zwj) & (c == Class::ExtendedPictographic) {
            if q == self.known {
                return false;
            }
            return self.pictograph_to(j);
        }
        Before::Scalar(p).joins(c)
    }

    // Where the last cluster of a valid text begins.
    fn last_start(self) -> usize
        requires { whole self.text.now × KnownPlace (profile_of self.profile) self.text.now self.known }
        ensures { result ≡ size (without_last (profile_of self.entry.profile) (reverse (run_of (decode self.entry.text.now)))) }
    {
        if self.text.len() == 0 {
            return 0;
        }
        let mut q = scalar_start(self.text, self.text.len());
        while 0 < q {
            if self.joins_at(q) {
                q = scalar_start(self.text, q);
            } else {
                return q;
            }
        }
        q
    }

    // Are the last two scalars of the text regional indicators, and is its end the known place, so that they are a pair?
    fn ends_in_pair(self) -> bool
        ensures { result ≡ ends_in_pair (profile_of self.entry.profile) self.entry.text.now self.entry.known }
    {
        let n = self.text.len();
        if n < 8 {
            return false;
        }
        if self.known == n {
            if self.is_indicator(n - 4) {
                return self.is_indicator(n - 8);
            }
            return false;
        }
        false
    }

    // GB12, GB13: do regional indicators stand before q and after it?
    fn is_between_indicators(self, q: usize) -> bool
        requires { q < length self.text.now }
        ensures { result ≡ between_indicators (profile_of self.entry.profile) self.entry.text.now q }
    {
        if q < 4 {
            return false;
        }
        if self.is_indicator(q) {
            return self.is_indicator(q - 4);
        }
        false
    }

    // GB11: do ZWJ stand before q and an Extended_Pictographic after it?
    fn is_after_zwj(self, q: usize) -> bool
        requires { q < length self.text.now }
        ensures { result ≡ after_zwj (profile_of self.entry.profile) self.entry.text.now q }
    {
        if q == 0 {
            return false;
        }
        let p = self.class_at(scalar_start(self.text, q));
        let c = self.class_at(q);
        (p == Class::Zwj) & (c == Class::ExtendedPictographic)
    }

    // Do the rules ask for more than the scalars on both sides of q to say whether there is a boundary?
    fn needs_context(self, q: usize) -> bool
        requires { q < length self.text.now }
        ensures { result ≡ needs_context (profile_of self.entry.profile) self.entry.text.now q }
    {
        if self.is_between_indicators(q) {
            return true;
        }
        self.is_after_zwj(q)
    }

    // The known place of the text without its last cluster, which begins at q: the one self.known while it is near, so that what is written and
    // erased after it does not move it.
    fn known_before(self, q: usize) -> usize
        requires { q < length self.text.now }
        ensures { result ≡ known_before (profile_of self.entry.profile) self.entry.text.now q self.entry.known }
    {
        if q < self.known {
            if self.needs_context(q) {
                return q;
            }
            return 0;
        }
        if q - self.known <= 128 {
            return self.known;
        }
        if is_ascii(self.text, q) {
            return self.known;
        }
        if self.needs_context(q) {
            return q;
        }
        self.known
    }

    // The known place of the text without the pair of regional indicators that begins at q and ends it.
    fn known_before_pair(self, q: usize) -> usize
        requires { q < length self.text.now }
        ensures { result ≡ pair_before (profile_of self.entry.profile) self.entry.text.now q }
    {
        if q < 4 {
            return 0;
        }
        if self.is_indicator(q - 4) {
            return q;
        }
        0
    }

    // The erasure of a valid text's last cluster; nothing is erased where a backspace is added instead.
    pub(crate) fn erase_last(self) -> Erasure
        requires { whole self.text.now × KnownPlace (profile_of self.profile) self.text.now self.known }
        ensures { Erased (profile_of self.entry.profile) self.entry.text.now self.entry.known result }
    {
        let n = self.text.len();
        if n == 0 {
            return Erasure {
                at: 0,
                known: self.known,
            };
        }
        let b = byte_at(self.text, n - 1);
        if never_joins_before(b) {
            if is_control(b) {
                return Erasure {
                    at: n,
                    known: self.known,
                };
            }
            return Erasure {
                at: n - 1,
                known: self.known_before(n - 1),
            };
        }
        if self.ends_in_pair() {
            return Erasure {
                at: n - 8,
                known: self.known_before_pair(n - 8),
            };
        }
        let q = self.last_start();
        if begins_with_control(self.text, q) {
            return Erasure {
                at: n,
                known: self.known,
            };
        }
        Erasure {
            at: q,
            known: self.known_before(q),
        }
    }
}
