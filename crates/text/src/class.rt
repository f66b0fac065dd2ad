// Classes of scalars: UAX #29's Grapheme_Cluster_Break, whitespace.
ghost use Rattle.std.specs.Prelude.{◌≡◌, ◌≤◌, ◌<◌};
ghost use Rattle.text.specs.Class.{number, in_any, controls, extends, pictographs, whitespace, is_control};
ghost use Rattle.text.specs.Class.Code.{class_number, jamo, printable, profile_of, syllable};

// The version of the text profile that classes and widths are taken from: 0 is document 01's.
#[derive(Clone, Copy)]
pub struct Profile {
    pub version: u8,
}

// UAX #29's classes.
#[derive(Clone, Copy, PartialEq, Eq, Debug)]
pub enum Class {
    Cr,
    Lf,
    Control,
    Extend,
    Zwj,
    L,
    V,
    T,
    Lv,
    Lvt,
    RegionalIndicator,
    Other,
    ExtendedPictographic,
}

fn in_controls(x: u32) -> bool
    ensures { result ≡ in_any controls x }
{
    (x <= 0x1F)
        | (((0x7F <= x) & (x <= 0x9F))
            | (((0x200B <= x) & (x <= 0x200B))
                | (((0x200E <= x) & (x <= 0x200F))
                    | (((0x2028 <= x) & (x <= 0x202E))
                        | (((0x2060 <= x) & (x <= 0x206F)) | ((0xFEFF <= x) & (x <= 0xFEFF)))))))
}

fn in_extends(x: u32) -> bool
    ensures { result ≡ in_any extends x }
{
    ((0x300 <= x) & (x <= 0x36F))
        | (((0x483 <= x) & (x <= 0x489))
            | (((0x1DC0 <= x) & (x <= 0x1DFF))
                | (((0x200C <= x) & (x <= 0x200C))
                    | (((0x20D0 <= x) & (x <= 0x20F0))
                        | (((0xFE00 <= x) & (x <= 0xFE0F))
                            | (((0xFE20 <= x) & (x <= 0xFE2F))
                                | ((0xE0100 <= x) & (x <= 0xE01EF))))))))
}

pub(crate) fn in_pictographs(x: u32) -> bool
    ensures { result ≡ in_any pictographs x }
{
    ((0x1F300 <= x) & (x <= 0x1F64F)) | ((0x1F900 <= x) & (x <= 0x1F9FF))
}

// A Hangul syllable's class: LV, or LVT where it ends in a consonant.
fn syllable_class(x: u32) -> Class
    requires { 0xAC00 ≤ x }
    ensures { class_number result ≡ number (syllable x) }
{
    if (x - 0xAC00) % 28 == 0 {
        return Class::Lv;
    }
    Class::Lvt
}

// The class of one of U+1100 to U+11FF.
fn jamo_class(x: u32) -> Class
    ensures { class_number result ≡ number (jamo x) }
{
    if x <= 0x115F {
        return Class::L;
    }
    if x <= 0x11A7 {
        return Class::V;
    }
    Class::T
}

// A scalar's class, by the ranges of the profile.
fn class_in_ranges(profile: Profile, x: u32) -> Class
    ensures { class_number result ≡ number ((profile_of profile).class x) }
{
    if x == 0x0D {
        return Class::Cr;
    }
    if x == 0x0A {
        return Class::Lf;
    }
    if in_controls(x) {
        return Class::Control;
    }
    if in_extends(x) {
        return Class::Extend;
    }
    if x == 0x200D {
        return Class::Zwj;
    }
    if ((0x1100 <= x) & (x <= 0x115F)) | ((0xA960 <= x) & (x <= 0xA97C)) {
        return Class::L;
    }
    if ((0x1160 <= x) & (x <= 0x11A7)) | ((0xD7B0 <= x) & (x <= 0xD7C6)) {
        return Class::V;
    }
    if ((0x11A8 <= x) & (x <= 0x11FF)) | ((0xD7CB <= x) & (x <= 0xD7FB)) {
        return Class::T;
    }
    if (0xAC00 <= x) & (x <= 0xD7A3) {
        return syllable_class(x);
    }
    if (0x1F1E6 <= x) & (x <= 0x1F1FF) {
        return Class::RegionalIndicator;
    }
    if in_pictographs(x) {
        return Class::ExtendedPictographic;
    }
    Class::Other
}

// The class of one of U+0300 to U+11FF.
fn low_class(profile: Profile, x: u32) -> Class
    requires { (0x300 ≤ x) × (x < 0x1200) }
    ensures { class_number result ≡ number ((profile_of profile).class x) }
{
    if x <= 0x36F {
        return Class::Extend;
    }
    if x <= 0x482 {
        return Class::Other;
    }
    if x < 0x1100 {
        return class_in_ranges(profile, x);
    }
    jamo_class(x)
}

// A scalar's class, the common ones found first.
pub(crate) fn class_of(profile: Profile, x: u32) -> Class
    ensures { class_number result ≡ number ((profile_of profile).class x) }
{
    if x < 0x300 {
        if ((0x20 <= x) & (x <= 0x7E)) | (0xA0 <= x) {
            return Class::Other;
        }
        return class_in_ranges(profile, x);
    }
    if x < 0x1200 {
        return low_class(profile, x);
    }
    if (0x2100 <= x) & (x <= 0xA95F) {
        return Class::Other;
    }
    if (0xAC00 <= x) & (x <= 0xD7A3) {
        return syllable_class(x);
    }
    if (0x1F650 <= x) & (x <= 0x1F8FF) {
        return Class::Other;
    }
    if (0x1FA00 <= x) & (x <= 0xE00FF) {
        return Class::Other;
    }
    class_in_ranges(profile, x)
}

// char::is_whitespace
pub fn is_whitespace(x: u32) -> bool
    ensures { result ≡ whitespace x }
{
    ((0x09 <= x) & (x <= 0x0D))
        | (((0x20 <= x) & (x <= 0x20))
            | (((0x85 <= x) & (x <= 0x85))
                | (((0xA0 <= x) & (x <= 0xA0))
                    | (((0x1680 <= x) & (x <= 0x1680))
                        | (((0x2000 <= x) & (x <= 0x200A))
                            | (((0x2028 <= x) & (x <= 0x2029))
                                | (((0x202F <= x) & (x <= 0x202F))
                                    | (((0x205F <= x) & (x <= 0x205F))
                                        | ((0x3000 <= x) & (x <= 0x3000))))))))))
}

// U+0020 to U+007E: class Other, one column.
pub fn is_printable(x: u32) -> bool
    ensures { result ≡ printable x }
{
    (0x20 <= x) & (x <= 0x7E)
}

// char::is_control
pub(crate) fn is_control(x: u32) -> bool
    ensures { result ≡ is_control x }
{
    (x <= 0x1F) | ((0x7F <= x) & (x <= 0x9F))
}
