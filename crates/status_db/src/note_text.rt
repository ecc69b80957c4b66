// The text of a note.
ghost use Rattle.std.specs.Prelude.{◌≡◌, ◌∷◌, [], List, ℕ, None, Some, false, true, IfOk};
ghost use Rattle.host_core.specs.Nodes.{own_access};
ghost use Rattle.host_core.specs.declared.node.Node.TheVariants.{File};
ghost use Rattle.texts.specs.PackageNames.{is_package_name};
ghost use Rattle.status_db.specs.Notes.{gone_fields, said_gone, said_of};
ghost use Rattle.status_db.specs.Noting.{IsNoteFile};
ghost use Rattle.status_records.specs.Words.{is_not_installed};

use control_fields::{Paragraph, write_paragraph};
use host_core::{Access, Content, Node};
use status_records::{Record, add_line, paragraph_of};
use std::alloc::{AllocError, Global};
use texts::Text;

fn file_of(bytes: Content) -> Node
    ensures { result ≡ File bytes (own_access 0o644) }
{
    Node::File {
        bytes,
        access: Access {
            mode: 0o644,
            user: 0,
            group: 0,
        },
    }
}

/// The note of a record.
pub(crate) fn note_node(alloc: Global, entry: &Record) -> Result<Node, AllocError>
    requires { is_not_installed entry.now.state ≡ false }
    ensures { IfOk result (λ node. IsNoteFile node (said_of entry.now)) }
{
    let paragraph = paragraph_of(alloc, entry)?;
    match write_paragraph(alloc, &paragraph) {
        Ok(text) => Ok(file_of(Content::new(text))),
        Err(_) => Err(AllocError),
    }
}

fn gone_paragraph(alloc: Global, name: &Text) -> Result<Paragraph, AllocError>
    ensures { IfOk result (λ p. p ≡ gone_fields name.now) }
{
    let mut paragraph = Paragraph::new(alloc);
    add_line(alloc, b"Package", name.as_str().as_bytes(), &mut paragraph)?;
    add_line(
        alloc,
        b"Status",
        b"unknown ok not-installed",
        &mut paragraph,
    )?;
    Ok(paragraph)
}

/// The note that a package has no record any more.
pub(crate) fn gone_node(alloc: Global, name: &Text) -> Result<Node, AllocError>
    requires { is_package_name name.now ≡ true }
    ensures { IfOk result (λ node. IsNoteFile node (said_gone name.now)) }
{
    let paragraph = gone_paragraph(alloc, name)?;
    match write_paragraph(alloc, &paragraph) {
        Ok(text) => Ok(file_of(Content::new(text))),
        Err(_) => Err(AllocError),
    }
}
