//! The text of the roles of groups.
ghost use Rattle.std.specs.Prelude.{◌≡◌, ◌++◌, OnOk, IfOk};
ghost use Rattle.report_text.specs.Roles.{end_of, role_line, role_lines, roles_text};

use crate::text::push_text;
use gm_base::Role;
use std::alloc::{AllocError, Global};
use token_text::put_number;

/// How a line ends that tells this role.
fn end_of(role: Role) -> &'static str
    ensures { result.now ≡ end_of role }
{
    match role {
        Role::InEvery => " every\n",
        Role::InSome => " some\n",
        Role::InNone => " none\n",
    }
}

/// The line of a group.
fn push_role(out: &mut Vec<u8>, group: usize, role: Role) -> Result<(), AllocError>
    ensures { OnOk result (out.new.items ≡ out.old.items ++ role_line group role) }
{
    push_text(out, "r ")?;
    put_number(out, group as i128)?;
    push_text(out, end_of(role))
}

/// A line for each group, from 1 on.
fn push_roles(out: &mut Vec<u8>, roles: &[Role]) -> Result<(), AllocError>
    ensures { OnOk result (out.new.items ≡ out.old.items ++ role_lines 1 roles.now) }
{
    let mut group = 0;
    for role in roles {
        group += 1;
        push_role(out, group, *role)?;
    }
    Ok(())
}

/// The text of the roles of the groups from 1 on: how many there are, and a line for each.
#[tactic(auto, unfolding(crate::specs::Roles::roles_text))]
pub fn roles_text(alloc: Global, roles: &[Role]) -> Result<Vec<u8>, AllocError>
    ensures { IfOk result (λ text. text.items ≡ roles_text roles.now) }
{
    let mut out = Vec::new(alloc);
    push_text(&mut out, "p roles ")?;
    put_number(&mut out, roles.len() as i128)?;
    push_text(&mut out, "\n")?;
    push_roles(&mut out, roles)?;
    Ok(out)
}
