//! Entries, and values that are none, in tables as `making` has them.
use crate::tests::making::{Form, InJson, JsonForm, assert_table, refusal, text_of};
use canonical_json::{Json, Member, MemberList, read};
use chain_entry::{EntryFault, decode, decode_transaction, encode, encode_transaction};
use ebl_base::{ByteList, CharList};
use std::alloc::Global;
use std::test::Fail;

struct Entries;

impl JsonForm for Entries {
    type Fault = EntryFault;

    fn again(alloc: Global, json: &Json) -> Result<Json, EntryFault> {
        let entry = decode(alloc, json)?;
        let json = encode(alloc, &entry);
        drop(entry);
        Ok(json?)
    }
}

// An entry, and first entries with their attempt and with the number of their transactions at the limits.
const WRITTEN: &str = r#"
{'platform':'ALPH','bill':'$','previous':'@','attempt':1,'transactions':[{'time':1000,'kind':'SIGN','actor':'ALPH/CARRIER'},{'time':2000,'recipient':'BETA/IMPORT','kind':'ISSUE','actor':'ALPH/CARRIER'}],'more':0} | {'attempt':1,'bill':'$','platform':'ALPH','previous':'@','transactions':[{'actor':'ALPH/CARRIER','kind':'SIGN','time':1000},{'actor':'ALPH/CARRIER','kind':'ISSUE','recipient':'BETA/IMPORT','time':2000}]}
{'platform':'ALPH','bill':'$','attempt':0,'transactions':[{'time':1000,'kind':'SIGN','actor':'ALPH/CARRIER'},{'time':2000,'recipient':'BETA/IMPORT','kind':'ISSUE','actor':'ALPH/CARRIER'}],'more':0} | EntryForm(Attempt)
{'platform':'ALPH','bill':'$','attempt':1,'transactions':[{'time':1000,'kind':'SIGN','actor':'ALPH/CARRIER'},{'time':2000,'recipient':'BETA/IMPORT','kind':'ISSUE','actor':'ALPH/CARRIER'}],'more':0} | {'attempt':1,'bill':'$','platform':'ALPH','transactions':[{'actor':'ALPH/CARRIER','kind':'SIGN','time':1000},{'actor':'ALPH/CARRIER','kind':'ISSUE','recipient':'BETA/IMPORT','time':2000}]}
{'platform':'ALPH','bill':'$','attempt':4294967295,'transactions':[{'time':1000,'kind':'SIGN','actor':'ALPH/CARRIER'},{'time':2000,'recipient':'BETA/IMPORT','kind':'ISSUE','actor':'ALPH/CARRIER'}],'more':0} | {'attempt':4294967295,'bill':'$','platform':'ALPH','transactions':[{'actor':'ALPH/CARRIER','kind':'SIGN','time':1000},{'actor':'ALPH/CARRIER','kind':'ISSUE','recipient':'BETA/IMPORT','time':2000}]}
{'platform':'ALPH','bill':'$','attempt':4294967296,'transactions':[{'time':1000,'kind':'SIGN','actor':'ALPH/CARRIER'},{'time':2000,'recipient':'BETA/IMPORT','kind':'ISSUE','actor':'ALPH/CARRIER'}],'more':0} | EntryForm(Attempt)
{'platform':'ALPH','bill':'$','attempt':1,'transactions':[],'more':0} | EntryForm(Transactions)
{'platform':'ALPH','bill':'$','attempt':1,'transactions':[{'actor':'ALPH/CARRIER','kind':'SURRENDER_REFUSED','time':0}],'more':0} | {'attempt':1,'bill':'$','platform':'ALPH','transactions':[{'actor':'ALPH/CARRIER','kind':'SURRENDER_REFUSED','time':0}]}
{'platform':'ALPH','bill':'$','attempt':1,'transactions':[*31*{'actor':'ALPH/CARRIER','kind':'SURRENDER_REFUSED','time':0},*{'actor':'ALPH/CARRIER','kind':'SURRENDER_REFUSED','time':0}],'more':0} | {'attempt':1,'bill':'$','platform':'ALPH','transactions':[*31*{'actor':'ALPH/CARRIER','kind':'SURRENDER_REFUSED','time':0},*{'actor':'ALPH/CARRIER','kind':'SURRENDER_REFUSED','time':0}]}
{'platform':'ALPH','bill':'$','attempt':1,'transactions':[*32*{'actor':'ALPH/CARRIER','kind':'SURRENDER_REFUSED','time':0},*{'actor':'ALPH/CARRIER','kind':'SURRENDER_REFUSED','time':0}],'more':0} | EntryForm(Transactions)
"#;

// A member that is left out, malformed, null, or out of its range: it is named with all behind it right, and with all
// behind it wrong.
const WRONG: &str = r#"
[] | EntryForm(Platform)
{'bill':'$','previous':'@','attempt':1,'transactions':[{'time':1000,'kind':'SIGN','actor':'ALPH/CARRIER'},{'time':2000,'recipient':'BETA/IMPORT','kind':'ISSUE','actor':'ALPH/CARRIER'}],'more':0} | EntryForm(Platform)
{'bill':null,'previous':null,'attempt':null,'transactions':null,'more':0} | EntryForm(Platform)
{'platform':'alph','bill':'$','previous':'@','attempt':1,'transactions':[{'time':1000,'kind':'SIGN','actor':'ALPH/CARRIER'},{'time':2000,'recipient':'BETA/IMPORT','kind':'ISSUE','actor':'ALPH/CARRIER'}],'more':0} | EntryForm(Platform)
{'platform':'alph','bill':null,'previous':null,'attempt':null,'transactions':null,'more':0} | EntryForm(Platform)
{'platform':7,'bill':'$','previous':'@','attempt':1,'transactions':[{'time':1000,'kind':'SIGN','actor':'ALPH/CARRIER'},{'time':2000,'recipient':'BETA/IMPORT','kind':'ISSUE','actor':'ALPH/CARRIER'}],'more':0} | EntryForm(Platform)
{'platform':7,'bill':null,'previous':null,'attempt':null,'transactions':null,'more':0} | EntryForm(Platform)
{'platform':null,'bill':'$','previous':'@','attempt':1,'transactions':[{'time':1000,'kind':'SIGN','actor':'ALPH/CARRIER'},{'time':2000,'recipient':'BETA/IMPORT','kind':'ISSUE','actor':'ALPH/CARRIER'}],'more':0} | EntryForm(Platform)
{'platform':null,'bill':null,'previous':null,'attempt':null,'transactions':null,'more':0} | EntryForm(Platform)
{'platform':'ALPH','previous':'@','attempt':1,'transactions':[{'time':1000,'kind':'SIGN','actor':'ALPH/CARRIER'},{'time':2000,'recipient':'BETA/IMPORT','kind':'ISSUE','actor':'ALPH/CARRIER'}],'more':0} | EntryForm(Bill)
{'platform':'ALPH','previous':null,'attempt':null,'transactions':null,'more':0} | EntryForm(Bill)
{'platform':'ALPH','bill':'44136FA355b3678a1146ad16f7e8649e94fb4fc21fe77e8310c060f61caaff8a','previous':'@','attempt':1,'transactions':[{'time':1000,'kind':'SIGN','actor':'ALPH/CARRIER'},{'time':2000,'recipient':'BETA/IMPORT','kind':'ISSUE','actor':'ALPH/CARRIER'}],'more':0} | EntryForm(Bill)
{'platform':'ALPH','bill':'44136FA355b3678a1146ad16f7e8649e94fb4fc21fe77e8310c060f61caaff8a','previous':null,'attempt':null,'transactions':null,'more':0} | EntryForm(Bill)
{'platform':'ALPH','bill':null,'previous':'@','attempt':1,'transactions':[{'time':1000,'kind':'SIGN','actor':'ALPH/CARRIER'},{'time':2000,'recipient':'BETA/IMPORT','kind':'ISSUE','actor':'ALPH/CARRIER'}],'more':0} | EntryForm(Bill)
{'platform':'ALPH','bill':null,'previous':null,'attempt':null,'transactions':null,'more':0} | EntryForm(Bill)
{'platform':'ALPH','bill':'$','previous':'ba7816bf','attempt':1,'transactions':[{'time':1000,'kind':'SIGN','actor':'ALPH/CARRIER'},{'time':2000,'recipient':'BETA/IMPORT','kind':'ISSUE','actor':'ALPH/CARRIER'}],'more':0} | EntryForm(Previous)
{'platform':'ALPH','bill':'$','previous':'ba7816bf','attempt':null,'transactions':null,'more':0} | EntryForm(Previous)
{'platform':'ALPH','bill':'$','previous':null,'attempt':1,'transactions':[{'time':1000,'kind':'SIGN','actor':'ALPH/CARRIER'},{'time':2000,'recipient':'BETA/IMPORT','kind':'ISSUE','actor':'ALPH/CARRIER'}],'more':0} | EntryForm(Previous)
{'platform':'ALPH','bill':'$','previous':null,'attempt':null,'transactions':null,'more':0} | EntryForm(Previous)
{'platform':'ALPH','bill':'$','previous':'@','transactions':[{'time':1000,'kind':'SIGN','actor':'ALPH/CARRIER'},{'time':2000,'recipient':'BETA/IMPORT','kind':'ISSUE','actor':'ALPH/CARRIER'}],'more':0} | EntryForm(Attempt)
{'platform':'ALPH','bill':'$','previous':'@','transactions':null,'more':0} | EntryForm(Attempt)
{'platform':'ALPH','bill':'$','previous':'@','attempt':0,'transactions':[{'time':1000,'kind':'SIGN','actor':'ALPH/CARRIER'},{'time':2000,'recipient':'BETA/IMPORT','kind':'ISSUE','actor':'ALPH/CARRIER'}],'more':0} | EntryForm(Attempt)
{'platform':'ALPH','bill':'$','previous':'@','attempt':0,'transactions':null,'more':0} | EntryForm(Attempt)
{'platform':'ALPH','bill':'$','previous':'@','attempt':4294967296,'transactions':[{'time':1000,'kind':'SIGN','actor':'ALPH/CARRIER'},{'time':2000,'recipient':'BETA/IMPORT','kind':'ISSUE','actor':'ALPH/CARRIER'}],'more':0} | EntryForm(Attempt)
{'platform':'ALPH','bill':'$','previous':'@','attempt':4294967296,'transactions':null,'more':0} | EntryForm(Attempt)
{'platform':'ALPH','bill':'$','previous':'@','attempt':'1','transactions':[{'time':1000,'kind':'SIGN','actor':'ALPH/CARRIER'},{'time':2000,'recipient':'BETA/IMPORT','kind':'ISSUE','actor':'ALPH/CARRIER'}],'more':0} | EntryForm(Attempt)
{'platform':'ALPH','bill':'$','previous':'@','attempt':'1','transactions':null,'more':0} | EntryForm(Attempt)
{'platform':'ALPH','bill':'$','previous':'@','attempt':null,'transactions':[{'time':1000,'kind':'SIGN','actor':'ALPH/CARRIER'},{'time':2000,'recipient':'BETA/IMPORT','kind':'ISSUE','actor':'ALPH/CARRIER'}],'more':0} | EntryForm(Attempt)
{'platform':'ALPH','bill':'$','previous':'@','attempt':null,'transactions':null,'more':0} | EntryForm(Attempt)
{'platform':'ALPH','bill':'$','previous':'@','attempt':1,'more':0} | EntryForm(Transactions)
{'platform':'ALPH','bill':'$','previous':'@','attempt':1,'transactions':[],'more':0} | EntryForm(Transactions)
{'platform':'ALPH','bill':'$','previous':'@','attempt':1,'transactions':{},'more':0} | EntryForm(Transactions)
{'platform':'ALPH','bill':'$','previous':'@','attempt':1,'transactions':[{'time':1000,'kind':'SIGN','actor':'ALPH/CARRIER'},7],'more':0} | EntryForm(Transactions)
"#;

#[test]
fn entries_are_read_and_written(rt: HostRuntime) -> Result<(), Fail> {
    assert_table::<InJson<Entries>, _>(&rt, WRITTEN)?;
    assert_table::<InJson<Entries>, _>(&rt, WRONG)
}

// A text of it is the members of a transaction but its time, and the time, which may be past what a text of JSON can
// say.
struct Transactions;

impl Form for Transactions {
    fn answer(alloc: Global, text: &[u8]) -> Result<ByteList, Fail> {
        match at_time(alloc, text) {
            Some(json) => transaction_again(alloc, json),
            None => Err("members and a time".into()),
        }
    }
}

fn at_time(alloc: Global, text: &[u8]) -> Option<Json> {
    let (members, time) = std::str::from_utf8(text).ok()?.rsplit_once(' ')?;
    let time = time.parse().ok()?;
    match read(alloc, members.as_bytes()) {
        Ok(json) => with_time(alloc, json, time),
        Err(_) => None,
    }
}

// An object with this time as one member more.
fn with_time(alloc: Global, json: Json, time: i64) -> Option<Json> {
    match json {
        Json::Object(members) => and_time(alloc, members, time),
        other => {
            drop(other);
            None
        }
    }
}

fn and_time(alloc: Global, members: MemberList, time: i64) -> Option<Json> {
    let mut members = members.into_vec();
    let name = CharList::from_text(alloc, "time").ok()?;
    members.push(Member::new(name, Json::Int(time))).ok()?;
    Some(Json::Object(MemberList::from_vec(members)))
}

fn transaction_again(alloc: Global, json: Json) -> Result<ByteList, Fail> {
    let answer = decode_transaction(&json);
    drop(json);
    match answer {
        Ok(transaction) => text_of(alloc, encode_transaction(alloc, &transaction)?),
        Err(fault) => refusal(alloc, fault),
    }
}

const TRANSACTIONS: &str = r#"
{'actor':'ALPH/EXPORT','kind':'SURRENDER_FOR_DELIVERY'} 0 | {'actor':'ALPH/EXPORT','kind':'SURRENDER_FOR_DELIVERY','time':0}
{'actor':'ALPH/EXPORT','kind':'TRANSFER','recipient':'BETA/IMPORT'} 9007199254740991 | {'actor':'ALPH/EXPORT','kind':'TRANSFER','recipient':'BETA/IMPORT','time':9007199254740991}
{'actor':'ALPH/EXPORT','kind':'TRANSFER','recipient':'BETA/IMPORT'} 9007199254740992 | EntryForm(Transactions)
{'actor':'ALPH/EXPORT','kind':'TRANSFER','recipient':'BETA/IMPORT'} -1 | EntryForm(Transactions)
{'actor':'ALPH/EXPORT','kind':'TRANSFER','recipient':null} 0 | EntryForm(Transactions)
{'actor':'ALPH/EXPORT','kind':'TRANSFER','recipient':'BETA'} 0 | EntryForm(Transactions)
{'actor':'ALPH/EXPORT','kind':'Transfer'} 0 | EntryForm(Transactions)
{'actor':'ALPH/EXPORT','kind':7} 0 | EntryForm(Transactions)
{'actor':'ALPH/EXPORT'} 0 | EntryForm(Transactions)
{'actor':null,'kind':'SIGN'} 0 | EntryForm(Transactions)
{'kind':'SIGN'} 0 | EntryForm(Transactions)
"#;

#[test]
fn transactions_are_read_and_written(rt: HostRuntime) -> Result<(), Fail> {
    assert_table::<Transactions, _>(&rt, TRANSACTIONS)
}
