//! Lines of answers that no script of `examples/` is given, against texts written by hand.
ghost use Rattle.answer_lines.specs.Lines.{IsWritable};
ghost use Rattle.answer_lines.specs.declared.answer.Answer.TheVariants.{Replied};

use answer_lines::{Answer, answer_line};
use ebl_base::{ByteList, NoMemory};
use platform_requests::Reply;
use std::alloc::Global;
use std::test::Fail;
use transport_document::DocumentFault;

// The line of this reply to event 1, which sends nothing and shows no bill.
fn line_of(alloc: Global, reply: Reply) -> Result<ByteList, NoMemory>
    requires { IsWritable (Replied reply) }
{
    let answer = Answer::Replied(reply);
    let line = answer_line(alloc, 1, &[], None, &answer);
    drop(answer);
    line
}

// Whether that line is this text.
fn is_line(alloc: Global, reply: Reply, want: &str) -> Result<bool, NoMemory>
    requires { IsWritable (Replied reply) }
{
    let line = line_of(alloc, reply)?;
    Ok(line.as_slice() == want.as_bytes())
}

const FULL: &str = "{\"event\":1,\"reply\":\"FULL\",\"sent\":[]}\n";

const DISK: &str = "{\"event\":1,\"reply\":\"DISK\",\"sent\":[]}\n";

const SIGN: &str = "{\"event\":1,\"reply\":\"SIGN\",\"sent\":[]}\n";

#[test]
fn replies_of_a_failing_outside(rt: HostRuntime) -> Result<(), Fail> {
    assert!(rt; is_line(rt.alloc(), Reply::Full, FULL)?);
    assert!(rt; is_line(rt.alloc(), Reply::Disk, DISK)?);
    assert!(rt; is_line(rt.alloc(), Reply::Sign, SIGN)?);
    Ok(())
}

const TOO_LARGE: &str =
    "{\"event\":1,\"fault\":\"TOO_LARGE\",\"reply\":\"DOCUMENT\",\"sent\":[]}\n";

#[test]
fn a_document_that_is_too_large(rt: HostRuntime) -> Result<(), Fail> {
    let large = is_line(
        rt.alloc(),
        Reply::Document(DocumentFault::TooLarge),
        TOO_LARGE,
    )?;
    assert!(rt; large);
    Ok(())
}
