//! A binary operation that has no operand at its left or at its right is ordinary.
ghost use Rattle.std.specs.Prelude.{◌≡◌, Some};
ghost use Rattle.mt_rules.specs.declared.class.Class.{Class};
ghost use Rattle.mt_rules.specs.Classes.{forward_of, settled_of};
ghost use Rattle.mt_spacing.specs.Meeting.{CanMeet};

use mt_rules::Class;

/// The class of an atom from what is before it: the class that the atom before it has by now, `None` at the
/// start of a list. A left boundary counts as [`Class::Open`] (The TeXbook, Appendix G, rule 5).
///
/// Whatever comes after these two atoms, the final classes that [`settled`] gives them can be side by side.
#[tactic(auto, using(crate::proofs::Neighbours::can_meet))]
pub fn forward(before: Option<Class>, own: Class) -> Class
    ensures is { result ≡ forward_of before own }
    ensures meets { (left : Class) → before ≡ Some left → CanMeet left result }
{
    match (own, before) {
        (Class::Bin, None) => Class::Ord,
        (Class::Bin, Some(Class::Bin | Class::Op | Class::Rel | Class::Open | Class::Punct)) => {
            Class::Ord
        }
        _ => own,
    }
}

/// The final class of an atom from what is after it: the class that [`forward`] gives the atom after it, `None`
/// at the end of a list. A right boundary counts as [`Class::Close`] (The TeXbook, Appendix G, rules 5 and 6).
pub fn settled(own: Class, after: Option<Class>) -> Class
    ensures { result ≡ settled_of own after }
{
    match (own, after) {
        (Class::Bin, None | Some(Class::Rel | Class::Close | Class::Punct)) => Class::Ord,
        _ => own,
    }
}
