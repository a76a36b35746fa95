//! What names are in a formula, by their numbers.
ghost use Rattle.std.specs.Prelude.{◌≡◌, ◌++◌, ◌∷◌, [], OnOk, OnErr};
ghost use Rattle.mt_tables.specs.inner.NameRoles.{AreRoles, role_numbered};

use mt_lexicon::Names;
use mt_plain::Codes;
use mt_scan::{Role, name_role};
use std::alloc::AllocError;

fn push_role(roles: &mut Vec<Role>, role: Role) -> Result<(), AllocError>
    ensures ok { OnOk result (roles.new.items ≡ roles.old.items ++ role ∷ []) }
    ensures err { OnErr result (roles.new.items ≡ roles.old.items) }
{
    roles.push(role)?;
    Ok(())
}

/// Adds the role of the name with a number, if it is the next one that has none yet.
#[inline]
pub fn add_role(
    codes: &Codes,
    names: &Names,
    roles: &mut Vec<Role>,
    number: usize,
) -> Result<(), AllocError>
    requires { AreRoles roles.old.items names.now }
    ensures { AreRoles roles.new.items names.now }
{
    if roles.len() != number {
        return Ok(());
    }
    if let Some(name) = names.name(number) {
        push_role(roles, name_role(codes, name))?;
    }
    Ok(())
}

/// What the name with a number is; what a Space is where no name has it.
#[inline]
pub fn role_numbered(codes: &Codes, names: &Names, roles: &[Role], number: usize) -> Role
    requires { AreRoles roles.now names.now }
    ensures { result ≡ role_numbered names.now number }
{
    match roles.get(number) {
        Some(role) => *role,
        None => late_role(codes, names, number),
    }
}

// The role of a name whose role is not kept, because memory ran out.
#[inline(never)]
fn late_role(codes: &Codes, names: &Names, number: usize) -> Role
    ensures { result ≡ role_numbered names.now number }
{
    match names.name(number) {
        Some(name) => name_role(codes, name),
        None => Role::Blank,
    }
}
