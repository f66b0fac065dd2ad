// UAX #29's rules.
ghost use Rattle.std.specs.Prelude.{◌≡◌, eqb};
ghost use Rattle.text.specs.Class.Code.{class_number};
ghost use Rattle.text.specs.Cluster.{joined};
ghost use Rattle.text.specs.Rules.{before_number, state_context, state_after};

use super::class::Class;

// What the rules ask of the scalars before a place.
#[derive(Clone, Copy)]
pub(crate) enum Before {
    // The last one's class; but Other after an even number of regional indicators, and ExtendedPictographic after one of these and any
    // number of Extend.
    Scalar(Class),
    // An Extended_Pictographic, any number of Extend and a ZWJ.
    PictographZwj,
}

impl Before {
    // With one more scalar, of class c.
    pub(crate) fn and(self, c: Class) -> Before
        ensures { before_number result ≡ state_after (before_number self) (class_number c) }
    {
        match (self, c) {
            (Before::Scalar(Class::RegionalIndicator), Class::RegionalIndicator) => {
                Before::Scalar(Class::Other)
            }
            (Before::Scalar(Class::ExtendedPictographic), Class::Extend) => self,
            (Before::Scalar(Class::ExtendedPictographic), Class::Zwj) => Before::PictographZwj,
            _ => Before::Scalar(c),
        }
    }

    // Is the last scalar's class, or what stands for it, this one?
    fn ends_in(self, class: Class) -> bool
        ensures { result ≡ eqb (before_number self) (class_number class) }
    {
        match self {
            Before::Scalar(last) => last == class,
            Before::PictographZwj => false,
        }
    }

    // Is there no boundary before a scalar of class c? By the class and not in the standard's order, in which eight rules come before the one
    // for most scalars.
    pub(crate) fn joins(self, c: Class) -> bool
        ensures { result ≡ joined (before_number self) (state_context (before_number self)) (class_number c) }
    {
        match c {
            // GB999, GB5
            Class::Other | Class::Cr | Class::Control => false,
            // GB4, GB9
            Class::Extend | Class::Zwj => {
                !(self.ends_in(Class::Control) | self.ends_in(Class::Cr) | self.ends_in(Class::Lf))
            }
            // GB6
            Class::L | Class::Lv | Class::Lvt => self.ends_in(Class::L),
            // GB6, GB7
            Class::V => self.ends_in(Class::L) | self.ends_in(Class::Lv) | self.ends_in(Class::V),
            // GB7, GB8
            Class::T => {
                self.ends_in(Class::Lv)
                    | self.ends_in(Class::V)
                    | self.ends_in(Class::Lvt)
                    | self.ends_in(Class::T)
            }
            // GB12, GB13
            Class::RegionalIndicator => self.ends_in(Class::RegionalIndicator),
            // GB11
            Class::ExtendedPictographic => matches!(self, Before::PictographZwj),
            // GB3
            Class::Lf => self.ends_in(Class::Cr),
        }
    }
}
