//! What is in force where a list is read.
ghost use Rattle.std.specs.Prelude.{◌≡◌, ◌≤◌, ◌<◌, ◌+◌, ◌^◌, ⊤, None};
ghost use Rattle.mt_scaled.specs.Number.{Within};
ghost use Rattle.mt_scan.specs.Limits.{max_groups};

use mt_scaled::Units;
use std::alloc::AllocError;

/// What is the same for a whole formula: what its items mean, and what `em` and `ex` are.
pub struct Grammar<'a, R> {
    /// What knows which tokens items are read as, and what these mean.
    pub roles: &'a R,
    /// What `em` and `ex` are, in scaled points.
    pub units: Units,
    ghost em: { Within (2 ^ 31) units.em },
    ghost ex: { Within (2 ^ 31) units.ex },
}

impl<'a, R> Copy for Grammar<'a, R> {}

impl<'a, R> Clone for Grammar<'a, R> {
    ghost is_clone = { λ x y. (y.roles.now ≡ x.roles.now) × (y.units ≡ x.units) };

    ghost is_infallible = { λ _. ⊤ };

    fn clone(&self) -> Result<Self, AllocError> {
        Ok(Grammar {
            roles: self.roles,
            units: self.units,
        })
    }
}

/// The groups round an item, and the family that is current there.
#[derive(Clone, Copy)]
pub struct Group {
    /// How many groups are open, at most 150.
    pub level: usize,
    /// The current family.
    pub family: Option<u8>,
    ghost few_groups: { level ≤ max_groups },
}

impl Group {
    /// Where so many groups are open and no family is current.
    pub fn without_family(level: usize) -> Group
        requires { level ≤ max_groups }
        ensures level { result.level ≡ level }
        ensures family { result.family ≡ None }
    {
        Group {
            level,
            family: None,
        }
    }

    /// Inside one more group.
    pub fn inside(self) -> Group
        requires { self.level < max_groups }
        ensures level { result.level ≡ self.level + 1 }
        ensures family { result.family ≡ self.family }
    {
        Group {
            level: self.level + 1,
            family: self.family,
        }
    }

    /// The same groups, with this family.
    pub fn with_family(self, family: Option<u8>) -> Group
        ensures level { result.level ≡ self.level }
        ensures family { result.family ≡ family }
    {
        Group {
            level: self.level,
            family,
        }
    }
}
