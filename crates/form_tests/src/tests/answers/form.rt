//! Each member wrong in each way, in tables as `making` has them.
use crate::tests::answers::unseal_fault;
use crate::tests::making::{Form, answer_text, assert_table, platform, refusal};
use canonical_json::read;
use ebl_base::{ByteList, PlatformCode, SignedText};
use signed_envelope::compose;
use std::alloc::Global;
use std::test::Fail;
use test_signer::KeyedRing;

// Payloads that ALPH signs.
struct Payloads;

impl Form for Payloads {
    fn answer(alloc: Global, text: &[u8]) -> Result<ByteList, Fail> {
        let alph = platform("ALPH")?;
        let signed = signed(alloc, alph, text)?;
        let fault = unseal_fault(alloc, alph, signed.0.as_slice());
        drop(signed);
        match fault {
            Some(fault) => refusal(alloc, fault),
            None => answer_text(alloc, b"taken"),
        }
    }
}

fn signed(alloc: Global, alph: PlatformCode, payload: &[u8]) -> Result<SignedText, Fail> {
    let json = read(alloc, payload)?;
    let mut ring = KeyedRing::derived();
    let text = compose(alloc, &mut ring, alph, &json, 65_536);
    drop(json);
    Ok(text?)
}

const WRONG: &str = r#"
// absent members
[] | Form(ResponseCode)
{} | Form(ResponseCode)
{'responseCode':'RECE'} | Form(Standing)
{'responseCode':'RECE','standing':true} | Form(Missing)
// codes and truth values
{'standing':false,'missing':[],'responseCode':null} | Form(ResponseCode)
{'standing':false,'missing':[],'responseCode':'rece'} | Form(ResponseCode)
{'responseCode':'BENV','missing':[],'standing':null} | Form(Standing)
{'responseCode':'BENV','missing':[],'standing':'true'} | Form(Standing)
{'responseCode':'BENV','missing':[],'standing':0} | Form(Standing)
// names
{'responseCode':'BENV','standing':false,'missing':[],'bill':null} | Form(Bill)
{'responseCode':'BENV','standing':false,'missing':[],'bill':'ba7816bf'} | Form(Bill)
{'responseCode':'BENV','standing':false,'missing':[],'last':null} | Form(Last)
{'responseCode':'BENV','standing':false,'missing':[],'last':1} | Form(Last)
{'responseCode':'BENV','standing':false,'missing':{}} | Form(Missing)
{'responseCode':'BENV','standing':false,'missing':[null]} | Form(Missing)
// reasons
{'responseCode':'BENV','standing':false,'missing':[],'reason':null} | Form(Reason)
{'responseCode':'BENV','standing':false,'missing':[],'reason':'body'} | Form(Reason)
{'responseCode':'BENV','standing':false,'missing':[],'reason':'PARTS'} | Form(Reason)
{'responseCode':'BENV','standing':false,'missing':[],'reason':'SIGNATURE','index':0} | Form(Reason)
// indexes
{'responseCode':'BENV','standing':false,'missing':[],'reason':'FOLD'} | Form(Index)
{'responseCode':'BENV','standing':false,'missing':[],'reason':'FOLD','index':64} | Form(Index)
{'responseCode':'BENV','standing':false,'missing':[],'reason':'FOLD','index':-1} | Form(Index)
{'responseCode':'BENV','standing':false,'missing':[],'reason':'FOLD','index':'1'} | Form(Index)
{'responseCode':'BENV','standing':false,'missing':[],'reason':'BODY','index':0} | Form(Index)
{'responseCode':'BENV','standing':false,'missing':[],'reason':'BODY','index':null} | Form(Index)
{'responseCode':'BENV','standing':false,'missing':[],'index':0} | Form(Index)
// evidence
{'responseCode':'BENV','standing':false,'missing':[],'own':null} | Form(Own)
{'responseCode':'BENV','standing':false,'missing':[],'own':['e30.e30.AA']} | Form(Own)
{'responseCode':'BENV','standing':false,'missing':[],'theirs':1} | Form(Theirs)
{'responseCode':'BENV','standing':false,'missing':[],'own':'','theirs':{}} | Form(Theirs)
// more than one: the first wrong one is named
{'responseCode':'BENV','standing':false,'missing':[],'last':1,'bill':1} | Form(Bill)
{'responseCode':'BENV','missing':[],'reason':1,'standing':1,'last':1} | Form(Last)
{'responseCode':'BENV','standing':false,'missing':[],'index':1,'reason':1} | Form(Reason)
{'responseCode':'BENV','standing':false,'theirs':1,'own':1,'missing':1} | Form(Missing)
{'responseCode':'BENV','standing':false,'missing':[],'theirs':1,'own':1} | Form(Own)
"#;

// Any text is taken as evidence, also one that is longer than what can be sealed: whether it can is another question.
const TAKEN: &str = r#"
{'responseCode':'BENV','standing':false,'missing':[],'further':null} | taken
{'responseCode':'BENV','standing':false,'missing':[],'reason':'FOLD','index':63} | taken
{'responseCode':'BENV','standing':false,'missing':[],'own':'e30.e30.AA','theirs':'..AA'} | taken
{'responseCode':'BENV','standing':false,'missing':[],'own':'e30.e30.AA=','theirs':'e30.e31.AA'} | taken
{'responseCode':'BENV','standing':false,'missing':[],'own':'','theirs':'\u20ac'} | taken
{'responseCode':'BENV','standing':false,'missing':[],'own':'e30.*16295*A*.*84*A*'} | taken
{'responseCode':'BENV','standing':false,'missing':[],'own':'e30.*16296*A*.*84*A*'} | taken
"#;

#[test]
fn members_of_a_response(rt: HostRuntime) -> Result<(), Fail> {
    assert_table::<Payloads, _>(&rt, WRONG)?;
    assert_table::<Payloads, _>(&rt, TAKEN)
}
