// Printing the answers of the readers and of the query writer, for the cases of the gate. Of these functions the one that prints a refusal says what it gives
// the writer; the others say nothing of it. What a refusal is made of is proved in the crate list_lines.
#![tactic(auto)]

ghost use Rattle.std.specs.Prelude.{OnOk};
ghost use Rattle.std.specs.Io.KnownBytes.{Appends};
ghost use Rattle.model.specs.Printed.{refusal_text};
ghost use Rattle.model.specs.Answers.{refusal_of};
ghost use Rattle.text.specs.Parts.{HasPart};
ghost use Rattle.print_answers.specs.Identities.{IdentitiesInside};

use model::limits::{MAX_IDENTITIES, MAX_QUERY_BYTES, WORK_WORDS};
use model::{Identity, Refusal, RequestRead};
use service::read_book;
use std::io;
use std::io::Write;
use text::parts::part_of;

// Room for a refusal, which has at most 38 bytes.
const LINE_BYTES: usize = 38;

// Prints what the book reader answers: the counts of nodes, relationships and entries.
pub fn print_book(out: &mut impl Write, book: &[u8]) -> io::Result<()> {
    let mut work = [0u32; WORK_WORDS];
    match read_book(book, &mut work) {
        Ok(size) => writeln!(
            out,
            "(book {} {} {})",
            size.nodes, size.relationships, size.entries
        ),
        Err(refusal) => print_refused(out, b"book ", refusal),
    }
}

// Prints what the rules reader answers: the counts of categories and policies.
pub fn print_rules(out: &mut impl Write, book: &[u8], rules: &[u8]) -> io::Result<()> {
    let mut work = [0u32; WORK_WORDS];
    match service::read_rules(book, rules, &mut work) {
        Ok(size) => writeln!(out, "(rules {} {})", size.categories, size.policies),
        Err(refusal) => print_refused(out, b"rules ", refusal),
    }
}

// Prints what the request reader answers: the category's number, and the identities.
pub fn print_request(
    out: &mut impl Write,
    book: &[u8],
    rules: &[u8],
    request: &[u8],
) -> io::Result<()> {
    let mut work = [0u32; WORK_WORDS];
    let read = service::read_request(book, rules, request, &mut work);
    match read.verdict {
        Ok(()) => print_accepted(out, request, read),
        Err(refusal) => print_refused(out, b"request ", refusal),
    }
}

// Prints an accepted request.
fn print_accepted(out: &mut impl Write, request: &[u8], read: RequestRead) -> io::Result<()>
    requires { IdentitiesInside request.now read.identities read.count }
{
    let identities = read.identities;
    print_number(out, b"(request ", read.category)?;
    print_identities(out, request, identities, read.count)?;
    out.write_all(b")\n")
}

// Prints so many identities.
fn print_identities(
    out: &mut impl Write,
    request: &[u8],
    identities: [Identity; MAX_IDENTITIES],
    count: usize,
) -> io::Result<()>
    requires { IdentitiesInside request.now identities count }
{
    for i in 0..count {
        let identity = identities[i];
        print_identity(out, request, identity)?;
    }
    Ok(())
}

// Prints an actor and the number of its node.
fn print_identity(out: &mut impl Write, request: &[u8], identity: Identity) -> io::Result<()>
    requires { HasPart request.now identity.actor }
{
    let actor = identity.actor;
    out.write_all(b" (")?;
    out.write_all(part_of(request, actor))?;
    print_number(out, b" ", identity.node)?;
    out.write_all(b")")
}

// Prints a number behind a text.
fn print_number(out: &mut impl Write, before: &[u8], n: usize) -> io::Result<()> {
    out.write_all(before)?;
    write!(out, "{n}")
}

// Prints a refusal behind a reader's name.
fn print_refused(out: &mut impl Write, name: &[u8], refusal: Refusal) -> io::Result<()> {
    out.write_all(name)?;
    print_refusal(out, refusal)
}

// Prints what the query writer writes.
pub fn print_written(
    out: &mut impl Write,
    book: &[u8],
    rules: &[u8],
    query: &[u8],
) -> io::Result<()> {
    let mut work = [0u32; WORK_WORDS];
    let mut text = [0u8; MAX_QUERY_BYTES];
    match service::write_query(book, rules, query, &mut text, &mut work) {
        Ok(length) => {
            program_io::print_front(out, &text, length)?;
            out.write_all(b"\n")
        }
        Err(refusal) => print_refused(out, b"write ", refusal),
    }
}

// Prints a refusal.
pub fn print_refusal<W: Write>(out: &mut W, refusal: Refusal) -> io::Result<()>
    ensures { OnOk result (Appends (W.contents out.old) (W.contents out.new) (refusal_text (refusal_of refusal))) }
{
    let mut line = [0u8; LINE_BYTES];
    let length = list_lines::put_refusal(refusal, &mut line, 0);
    program_io::print_front(out, &line, length)
}
