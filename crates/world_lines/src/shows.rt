//! The `show` lines: the epoch and the live objects of a member.

ghost use Rattle.std.specs.Prelude.{◌≡◌, ◌∷◌, [], IfOk, OnOk, map};
ghost use Rattle.world_spec.specs.Report.{object_line, shown, shown_content, shown_owner};
ghost use Rattle.world_spec.specs.Known.{setting_with, world_with};
ghost use Rattle.world_lines.specs.Pushed.{each_pushed};

use crate::Directory;
use crate::words::object_text;
use chain_types::{Content, Object, Owner};
use report_text::{ContentText, Line, OwnerText, ShowText};
use wire_bcs::{OutOfMemory, Seq};

/// The owner of an object, by name, as a report shows it.
fn shown_owner(directory: &Directory, owner: &Owner) -> Result<OwnerText, OutOfMemory>
    ensures { IfOk result (λ text. text ≡ shown_owner (world_with directory.now) owner.now) }
{
    match owner {
        Owner::Address(address) => {
            let name = directory.address_name(address);
            let name = Seq::from_slice(directory.allocator(), name)?;
            Ok(OwnerText::Address { name })
        }
        Owner::Shared(initial) => Ok(OwnerText::Shared { initial: *initial }),
        Owner::Immutable => Ok(OwnerText::Frozen),
    }
}

/// The content of an object as a report shows it.
fn shown_content(directory: &Directory, content: &Content) -> Result<ContentText, OutOfMemory>
    ensures { IfOk result (λ text. text ≡ shown_content (setting_with directory.now) (world_with directory.now) content.now) }
{
    match content {
        Content::Coin { currency, balance } => Ok(ContentText::Coin {
            currency: *currency,
            balance: *balance,
        }),
        Content::Cap { currency, supply } => Ok(ContentText::Cap {
            currency: *currency,
            supply: *supply,
        }),
        Content::Counter { value } => Ok(ContentText::Counter { value: *value }),
        Content::Vault { currency, balance } => Ok(ContentText::Vault {
            currency: *currency,
            balance: *balance,
        }),
        Content::VaultKey { vault } => {
            let object = object_text(directory, vault)?;
            Ok(ContentText::Key { object })
        }
        Content::Limit { value } => Ok(ContentText::Limit { value: *value }),
    }
}

/// The line for an object.
pub fn object_line(directory: &Directory, object: &Object) -> Result<Line, OutOfMemory>
    ensures { IfOk result (λ line. line ≡ object_line (setting_with directory.now) (world_with directory.now) object.now) }
{
    let name = object_text(directory, &object.id)?;
    let owner = shown_owner(directory, &object.owner)?;
    let content = shown_content(directory, &object.content)?;
    Ok(Line::Object {
        object: name,
        version: object.version,
        owner,
        content,
    })
}

/// Adds the lines of objects.
fn add_objects(
    directory: &Directory,
    lines: &mut Seq<Line>,
    objects: &[Object],
) -> Result<(), OutOfMemory>
    ensures { OnOk result (lines.new ≡ each_pushed (object_line (setting_with directory.now) (world_with directory.now)) lines.old objects.now) }
{
    for object in objects {
        let line = object_line(directory, object)?;
        lines.push(line)?;
    }
    Ok(())
}

/// The lines for the objects that a member holds: its epoch and their number, and a line for each in the order
/// in which they are shown.
#[tactic(auto, using(crate::proofs::Pushed::one_behind))]
pub fn shown_lines(
    directory: &Directory,
    member: u32,
    epoch: u64,
    objects: &[Object],
) -> Result<Seq<Line>, OutOfMemory>
    ensures { IfOk result (λ lines. lines ≡ shown (setting_with directory.now) (world_with directory.now) member epoch objects.now) }
{
    let mut lines = Seq::new(directory.allocator());
    lines.push(Line::Show {
        member: member as u64,
        text: ShowText::Shown {
            epoch,
            objects: objects.len() as u64,
        },
    })?;
    let order = directory.shown_order(objects)?;
    add_objects(directory, &mut lines, order.as_slice())?;
    Ok(lines)
}
