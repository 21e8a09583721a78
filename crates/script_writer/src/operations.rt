// The words of operations.
ghost use Rattle.std.specs.Prelude.{[], ◌∷◌};
ghost use Rattle.swarm_objects.specs.declared.calls.Op.TheVariants as op;
ghost use Rattle.swarm_objects.specs.Writers.{Puts};
ghost use Rattle.script_grammar.specs.Texts.{address_text, force_words, op_words, subnet_text, version_words};
ghost use Rattle.script_writer.specs.Behind.{behind, ops_text};

use crate::drafts::{put_new_node, put_old_node, put_service, put_settings};
use crate::words::put_words;
use std::alloc::AllocError;
use std::fmt::Write;
use swarm_objects::{Availability, Draft, Labels, Name, NodeRole, Op, Version};

fn put_version(text: &mut String, version: Option<Version>) -> Result<(), AllocError>
    ensures { Puts result text.old text.new (behind (version_words version)) }
{
    match version {
        Some(version) => write!(text, " @{version}"),
        None => Ok(()),
    }
}

fn put_force(text: &mut String, force: bool) -> Result<(), AllocError>
    ensures { Puts result text.old text.new (behind (force_words force)) }
{
    if force {
        text.push_str(" force")
    } else {
        Ok(())
    }
}

// Puts the four bytes of an address, the highest first.
fn put_address(text: &mut String, base: u32) -> Result<(), AllocError>
    ensures { Puts result text.old text.new (address_text base) }
{
    let (first, second) = (base / 16_777_216, base / 65_536 % 256);
    let (third, fourth) = (base / 256 % 256, base % 256);
    write!(text, "{first}.{second}.{third}.{fourth}")
}

fn put_subnet(text: &mut String, base: u32, length: u8) -> Result<(), AllocError>
    ensures { Puts result text.old text.new (behind (subnet_text base length ∷ [])) }
{
    text.push_str(" subnet=")?;
    put_address(text, base)?;
    write!(text, "/{length}")
}

fn put_node_update(
    text: &mut String,
    name: &Name,
    version: Option<Version>,
    labels: &Labels,
    role: NodeRole,
    availability: Availability,
) -> Result<(), AllocError>
    ensures { Puts result text.old text.new
        (behind (op_words (op.UpdateNode name.now version labels.now role availability))) }
{
    put_words(text, &["node", "update", name.as_str()])?;
    put_version(text, version)?;
    put_old_node(text, labels.as_slice(), role, availability)
}

fn put_service_update(
    text: &mut String,
    name: &Name,
    version: Option<Version>,
    draft: &Draft,
) -> Result<(), AllocError>
    ensures { Puts result text.old text.new (behind (op_words (op.UpdateService name.now version draft.now))) }
{
    put_words(text, &["service", "update", name.as_str()])?;
    put_version(text, version)?;
    put_service(text, draft)
}

/// Puts the words of an operation, each after a space.
pub fn put_op(text: &mut String, op: &Op) -> Result<(), AllocError>
    ensures { Puts result text.old text.new (behind (op_words op.now)) }
{
    match op {
        Op::CreateNode(name, draft) => {
            put_words(text, &["node", "join", name.as_str()])?;
            put_new_node(text, draft)
        }
        Op::UpdateNode(name, version, labels, role, availability) => {
            put_node_update(text, name, *version, labels, *role, *availability)
        }
        Op::RemoveNode(name, force) => {
            put_words(text, &["node", "remove", name.as_str()])?;
            put_force(text, *force)
        }
        Op::CreateService(name, draft) => {
            put_words(text, &["service", "create", name.as_str()])?;
            put_service(text, draft)
        }
        Op::UpdateService(name, version, draft) => put_service_update(text, name, *version, draft),
        Op::RemoveService(name) => put_words(text, &["service", "remove", name.as_str()]),
        Op::RollbackService(name, version) => {
            put_words(text, &["service", "rollback", name.as_str()])?;
            put_version(text, *version)
        }
        Op::CreateNetwork(name, base, length) => {
            put_words(text, &["network", "create", name.as_str()])?;
            put_subnet(text, *base, *length)
        }
        Op::RemoveNetwork(name) => put_words(text, &["network", "remove", name.as_str()]),
        Op::SetCluster(settings) => {
            put_words(text, &["cluster", "set"])?;
            put_settings(text, settings)
        }
    }
}

/// Puts operations with a semicolon between two.
pub fn put_ops(text: &mut String, ops: &[Op]) -> Result<(), AllocError>
    ensures { Puts result text.old text.new (ops_text ops.now) }
{
    let Some((first, more)) = ops.split_first() else {
        return Ok(());
    };
    put_op(text, first)?;
    for op in more {
        text.push_str(" ;")?;
        put_op(text, op)?;
    }
    Ok(())
}
