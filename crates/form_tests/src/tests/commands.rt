//! Commands, and values that are none, in tables as `making` has them.
use crate::tests::making::{InJson, JsonForm, assert_table, json, same};
use canonical_json::Json;
use ebl_base::{Kind, Party};
use holder_commands::{Command, CommandFault};
use std::alloc::Global;
use std::process::Abort;
use std::test::Fail;

struct Commands;

impl JsonForm for Commands {
    type Fault = CommandFault;

    // By a copy of the command.
    fn again(alloc: Global, json: &Json) -> Result<Json, CommandFault> {
        let command = Command::read(alloc, json)?;
        let copy = command.copy(alloc);
        drop(command);
        written(alloc, copy?)
    }
}

fn written(alloc: Global, command: Command) -> Result<Json, CommandFault> {
    let json = command.write(alloc);
    drop(command);
    Ok(json?)
}

// A text, and the text of what it is read as, written again.
const WRITTEN: &str = r#"
{'document':{'b':1,'a':[]},'do':'SIGN','recipient':7,'bill':null} | {'do':'SIGN','document':{'a':[],'b':1}}
{'document':null,'do':'SIGN'} | {'do':'SIGN','document':null}
{'do':'ISSUE','recipient':'ALPH/EXPORT','bill':'$','document':{}} | {'bill':'$','do':'ISSUE','recipient':'ALPH/EXPORT'}
{'do':'SURRENDER_FOR_DELIVERY','bill':'$'} | {'bill':'$','do':'SURRENDER_FOR_DELIVERY'}
{'do':'ATTACH','bill':'$','name':'a','media':'text/plain','bytes':'YWJj','more':0} | {'bill':'$','bytes':'YWJj','do':'ATTACH','media':'text/plain','name':'a'}
{'do':'ATTACH','bill':'$','name':'€','media':'m','bytes':''} | {'bill':'$','bytes':'','do':'ATTACH','media':'m','name':'€'}
"#;

// Each member wrong in each way, with all later members wrong too: the first wrong one is named.
const WRONG: &str = r#"
[] | CommandForm(Do)
null | CommandForm(Do)
{} | CommandForm(Do)
{'do':null} | CommandForm(Do)
{'do':7,'document':{}} | CommandForm(Do)
{'do':'sign','document':{}} | CommandForm(Do)
{'do':'','document':{}} | CommandForm(Do)
{'do':'ATTACHED'} | CommandForm(Do)
{'do':'REISSUE'} | CommandForm(Do)
{'do':'SIGN','documents':{}} | CommandForm(Document)
{'do':'TRANSFER','recipient':null} | CommandForm(Bill)
{'do':'TRANSFER','bill':null,'recipient':null} | CommandForm(Bill)
{'do':'TRANSFER','bill':'44136FA355B3678A1146AD16F7E8649E94FB4FC21FE77E8310C060F61CAAFF8A'} | CommandForm(Bill)
{'do':'TRANSFER','bill':'$','recipient':null} | CommandForm(Recipient)
{'do':'TRANSFER','bill':'$','recipient':'ALPH'} | CommandForm(Recipient)
{'do':'ATTACH','bill':'44136f','name':'','media':'','bytes':'='} | CommandForm(Bill)
{'do':'ATTACH','bill':'$','name':'','media':'','bytes':'='} | CommandForm(Name)
{'do':'ATTACH','bill':'$','name':'a\u007f','media':'','bytes':'='} | CommandForm(Name)
{'do':'ATTACH','bill':'$','name':'a','bytes':'='} | CommandForm(Media)
{'do':'ATTACH','bill':'$','name':'a','media':'m'} | CommandForm(Bytes)
{'do':'ATTACH','bill':'$','name':'a','media':'m','bytes':'YWI'} | CommandForm(Bytes)
{'do':'ATTACH','bill':'$','name':'a','media':'m','bytes':'YWJ='} | CommandForm(Bytes)
{'do':'ATTACH','bill':'$','name':'a','media':'m','bytes':'-_-_'} | CommandForm(Bytes)
{'do':'ATTACH','bill':'$','name':'a','media':'m','bytes':'YW\nJj'} | CommandForm(Bytes)
"#;

// The name and the media type of an attachment at their limits.
const LIMITS: &str = r#"
{'bill':'$','bytes':'AAAA','do':'ATTACH','media':'m','name':''} | CommandForm(Name)
{'bill':'$','bytes':'AAAA','do':'ATTACH','media':'m','name':'n'} | {'bill':'$','bytes':'AAAA','do':'ATTACH','media':'m','name':'n'}
{'bill':'$','bytes':'AAAA','do':'ATTACH','media':'*64*m*','name':'*128*n*'} | {'bill':'$','bytes':'AAAA','do':'ATTACH','media':'*64*m*','name':'*128*n*'}
{'bill':'$','bytes':'AAAA','do':'ATTACH','media':'*64*m*','name':'*129*n*'} | CommandForm(Name)
{'bill':'$','bytes':'AAAA','do':'ATTACH','media':'*65*m*','name':'*128*n*'} | CommandForm(Media)
{'bill':'$','bytes':'AAAA','do':'ATTACH','media':'','name':'*128*n*'} | CommandForm(Media)
"#;

#[test]
fn commands_are_read_and_written(rt: HostRuntime) -> Result<(), Fail> {
    assert_table::<InJson<Commands>, _>(&rt, WRITTEN)?;
    assert_table::<InJson<Commands>, _>(&rt, WRONG)?;
    assert_table::<InJson<Commands>, _>(&rt, LIMITS)
}

fn command_of(alloc: Global, text: &str) -> Result<Command, Fail> {
    let json = json(alloc, text)?;
    let command = Command::read(alloc, &json);
    drop(json);
    Ok(command?)
}

fn assert_act(rt: &impl Abort, first: u8, kind: Kind, recipient: Option<Party>) {
    same(rt, "first byte", first, 0x44);
    same(rt, "kind", kind, Kind::Issue);
    let export = Party::from_text(b"ALPH/EXPORT");
    same(rt, "recipient", recipient, export);
}

fn assert_zeros(rt: &impl Abort, bytes: &[u8], count: usize) {
    same(rt, "length", bytes.len(), count);
    assert!(rt; bytes.iter().all(|byte| *byte == 0));
}

// An act's parts, and those of an attachment that has so many bytes, each 0.
fn assert_parts(rt: &impl Abort, command: &Command, count: usize) {
    match command {
        Command::Act {
            bill,
            kind,
            recipient,
        } => assert_act(rt, bill.0[0], *kind, *recipient),
        Command::Attach { bytes, .. } => assert_zeros(rt, bytes.as_slice(), count),
        _ => panic!(rt; "an act or an attachment"),
    }
}

fn parts_row(rt: &impl Abort, alloc: Global, text: &str, count: usize) -> Result<(), Fail> {
    let command = command_of(alloc, text)?;
    assert_parts(rt, &command, count);
    drop(command);
    Ok(())
}

// An act, and attachments with how many bytes they have. The last are one more than a bill's document may have: the
// form takes any length.
const PARTS: [(&str, usize); 4] = [
    (
        "{'do':'ISSUE','recipient':'ALPH/EXPORT','bill':'$','document':{}}",
        0,
    ),
    (
        "{'do':'ATTACH','bill':'$','name':'n','media':'m','bytes':''}",
        0,
    ),
    (
        "{'do':'ATTACH','bill':'$','name':'n','media':'m','bytes':'AAAA'}",
        3,
    ),
    (
        "{'do':'ATTACH','bill':'$','name':'n','media':'m','bytes':'*699051*AAAA*'}",
        2_097_153,
    ),
];

#[test]
fn commands_have_their_parts(rt: HostRuntime) -> Result<(), Fail> {
    for &(text, count) in &PARTS {
        parts_row(&rt, rt.alloc(), text, count)?;
    }
    Ok(())
}
