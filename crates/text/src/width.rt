// Widths of scalars, in columns.
ghost use Rattle.std.specs.Prelude.{◌≡◌, [], ◌∷◌};
ghost use Rattle.text.specs.Class.{number, among, in_any, cr, lf, control, extend, zwj, class_v, class_t};
ghost use Rattle.text.specs.Width.{wides};
ghost use Rattle.text.specs.Class.Code.{profile_of};

use super::class::{Class, Profile, class_of, is_printable};

fn in_wides(x: u32) -> bool
    ensures { result ≡ in_any wides x }
{
    ((0x1100 <= x) & (x <= 0x115F))
        | (((0x2E80 <= x) & (x <= 0x303E))
            | (((0x3041 <= x) & (x <= 0xA4CF))
                | (((0xA960 <= x) & (x <= 0xA97C))
                    | (((0xAC00 <= x) & (x <= 0xD7A3))
                        | (((0xF900 <= x) & (x <= 0xFAFF))
                            | (((0xFE30 <= x) & (x <= 0xFE6F))
                                | (((0xFF01 <= x) & (x <= 0xFF60))
                                    | (((0xFFE0 <= x) & (x <= 0xFFE6))
                                        | (((0x1F300 <= x) & (x <= 0x1F64F))
                                            | (((0x1F900 <= x) & (x <= 0x1F9FF))
                                                | (((0x20000 <= x) & (x <= 0x2FFFD))
                                                    | ((0x30000 <= x) & (x <= 0x3FFFD)))))))))))))
}

// CR, LF, Control, Extend, ZWJ, V or T
fn has_no_width(profile: Profile, x: u32) -> bool
    ensures { result ≡ among (number ((profile_of profile).class x)) (cr ∷ lf ∷ control ∷ extend ∷ zwj ∷ class_v ∷ class_t ∷ []) }
{
    matches!(
        class_of(profile, x),
        Class::Cr | Class::Lf | Class::Control | Class::Extend | Class::Zwj | Class::V | Class::T
    )
}

// The width of a scalar.
pub fn width(profile: Profile, x: u32) -> usize
    ensures { result ≡ (profile_of profile).width x }
{
    if is_printable(x) {
        return 1;
    }
    if (0x3041 <= x) & (x <= 0xA4CF) {
        return 2;
    }
    if ((0xA0 <= x) & (x <= 0x2FF)) | ((0x370 <= x) & (x <= 0x482)) {
        return 1;
    }
    if (0xAC00 <= x) & (x <= 0xD7A3) {
        return 2;
    }
    if (0x1F300 <= x) & (x <= 0x1F64F) {
        return 2;
    }
    if (0x1F1E6 <= x) & (x <= 0x1F1FF) {
        return 1;
    }
    if has_no_width(profile, x) {
        return 0;
    }
    if in_wides(x) {
        return 2;
    }
    1
}
