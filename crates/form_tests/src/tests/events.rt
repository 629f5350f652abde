//! Lines that are events, and values that are none, in tables as `making` has them.
use crate::tests::making::{InJson, JsonForm, assert_table};
use canonical_json::Json;
use std::alloc::Global;
use std::test::Fail;
use world_script::{Event, EventFault};

struct Events;

impl JsonForm for Events {
    type Fault = EventFault;

    // By a copy of the event.
    fn again(alloc: Global, json: &Json) -> Result<Json, EventFault> {
        let event = Event::read(alloc, json)?;
        let copy = event.copy(alloc);
        drop(event);
        written(alloc, copy?)
    }
}

fn written(alloc: Global, event: Event) -> Result<Json, EventFault> {
    let json = event.write(alloc);
    drop(event);
    Ok(json?)
}

// A text, and the text of what it is read as, written again.
const WRITTEN: &str = r#"
{'at':'ALPH','do':'SIGN','document':{'b':1.5,'a':[]},'now':1000,'party':'ALPH/CARRIER','recipient':7} | {'at':'ALPH','do':'SIGN','document':{'a':[],'b':1.5},'now':1000,'party':'ALPH/CARRIER'}
{'at':'ALPH','do':'SIGN','document':null,'party':'BETA/X'} | {'at':'ALPH','do':'SIGN','document':null,'now':0,'party':'BETA/X'}
{'at':'ALPH','bill':1,'do':'ISSUE','now':2000,'party':'ALPH/CARRIER','recipient':'ALPH/EXPORT'} | {'at':'ALPH','bill':1,'do':'ISSUE','now':2000,'party':'ALPH/CARRIER','recipient':'ALPH/EXPORT'}
{'at':'ALPH','bill':'$','do':'SURRENDER_ACCEPTED','now':9007199254740991,'party':'ALPH/CARRIER'} | {'at':'ALPH','bill':'$','do':'SURRENDER_ACCEPTED','now':9007199254740991,'party':'ALPH/CARRIER'}
{'at':'ALPH','bill':2,'bytes':'YWJj','do':'ATTACH','media':'text/plain','name':'a','party':'ALPH/EXPORT'} | {'at':'ALPH','bill':2,'bytes':'YWJj','do':'ATTACH','media':'text/plain','name':'a','now':0,'party':'ALPH/EXPORT'}
{'deliver':1} | {'deliver':1}
{'at':'BETA','deliver':9007199254740991} | {'at':'BETA','deliver':9007199254740991}
{'restart':'ALPH','at':7} | {'restart':'ALPH'}
{'resend':true,'bill':1,'at':'ALPH'} | {'at':'ALPH','bill':1,'resend':true}
{'ask':true,'bill':'$','at':'ALPH'} | {'ask':true,'at':'ALPH','bill':'$'}
{'foreign':'START','body':'{}','at':'BETA'} | {'at':'BETA','body':'{}','foreign':'START'}
{'at':'BETA','bytes':'YWJj','checksum':'$','foreign':'PUT','reference':'{%}'} | {'at':'BETA','bytes':'YWJj','checksum':'$','foreign':'PUT','reference':'%'}
{'at':'BETA','foreign':'FINISH','reference':'447816BF8F01CFEA414140DE5DAE2223'} | {'at':'BETA','foreign':'FINISH','reference':'%'}
{'at':'ALPH','bill':1,'foreign':'START_REPLY','text':'€'} | {'at':'ALPH','bill':1,'foreign':'START_REPLY','text':'€'}
{'at':'ALPH','bill':'$','foreign':'FINISH_REPLY','text':''} | {'at':'ALPH','bill':'$','foreign':'FINISH_REPLY','text':''}
{'show':3,'at':null} | {'show':3}
// the first mark decides
{'deliver':2,'restart':7,'show':0} | {'deliver':2}
{'restart':'ALPH','resend':1} | {'restart':'ALPH'}
{'ask':0,'at':'ALPH','bill':1,'resend':true} | {'at':'ALPH','bill':1,'resend':true}
{'ask':true,'at':'ALPH','bill':1,'foreign':0} | {'ask':true,'at':'ALPH','bill':1}
{'at':'BETA','body':'','foreign':'START','show':0} | {'at':'BETA','body':'','foreign':'START'}
"#;

// Each member of each event absent and in wrong forms: first those of commands, then those of others.
const WRONG: &str = r#"
{'at':'ALPH','do':null,'document':{},'party':'ALPH/X'} | EventForm
{'at':'ALPH','do':'sign','document':{},'party':'ALPH/X'} | EventForm
{'at':'ALPH','do':'REISSUE','bill':1,'party':'ALPH/X'} | EventForm
// a wrong command isn't a delivery
{'at':'ALPH','do':7,'deliver':1} | EventForm
{'do':'SIGN','document':{},'party':'ALPH/X'} | EventForm
{'at':'alph','do':'SIGN','document':{},'party':'ALPH/X'} | EventForm
{'at':null,'do':'SIGN','document':{},'party':'ALPH/X'} | EventForm
{'at':'ALPH','do':'SIGN','document':{}} | EventForm
{'at':'ALPH','do':'SIGN','document':{},'party':'ALPH'} | EventForm
{'at':'ALPH','do':'SIGN','document':{},'party':null} | EventForm
{'at':'ALPH','do':'SIGN','document':{},'now':null,'party':'ALPH/X'} | EventForm
{'at':'ALPH','do':'SIGN','document':{},'now':-1,'party':'ALPH/X'} | EventForm
{'at':'ALPH','do':'SIGN','document':{},'now':1.5,'party':'ALPH/X'} | EventForm
{'at':'ALPH','do':'SIGN','document':{},'now':'1','party':'ALPH/X'} | EventForm
{'at':'ALPH','do':'SIGN','party':'ALPH/X'} | EventForm
{'at':'ALPH','do':'ISSUE','party':'ALPH/X','recipient':'ALPH/Y'} | EventForm
{'at':'ALPH','bill':0,'do':'ISSUE','party':'ALPH/X','recipient':'ALPH/Y'} | EventForm
{'at':'ALPH','bill':-1,'do':'ISSUE','party':'ALPH/X','recipient':'ALPH/Y'} | EventForm
{'at':'ALPH','bill':1.5,'do':'ISSUE','party':'ALPH/X','recipient':'ALPH/Y'} | EventForm
{'at':'ALPH','bill':'1','do':'ISSUE','party':'ALPH/X','recipient':'ALPH/Y'} | EventForm
{'at':'ALPH','bill':null,'do':'ISSUE','party':'ALPH/X','recipient':'ALPH/Y'} | EventForm
{'at':'ALPH','bill':1,'do':'ISSUE','party':'ALPH/X','recipient':null} | EventForm
{'at':'ALPH','bill':1,'do':'ISSUE','party':'ALPH/X','recipient':'ALPH/'} | EventForm
{'at':'ALPH','bytes':'','do':'ATTACH','media':'m','name':'n','party':'ALPH/X'} | EventForm
{'at':'ALPH','bill':1,'do':'ATTACH','media':'m','name':'n','party':'ALPH/X'} | EventForm
{'at':'ALPH','bill':1,'bytes':'YWJ','do':'ATTACH','media':'m','name':'n','party':'ALPH/X'} | EventForm
{'at':'ALPH','bill':1,'bytes':'-_-_','do':'ATTACH','media':'m','name':'n','party':'ALPH/X'} | EventForm
{'at':'ALPH','bill':1,'bytes':'','do':'ATTACH','media':'','name':'n','party':'ALPH/X'} | EventForm
{'at':'ALPH','bill':1,'bytes':'','do':'ATTACH','media':'m','party':'ALPH/X'} | EventForm
{'at':'ALPH','bill':1,'bytes':'','do':'ATTACH','media':'m','name':'a\u007f','party':'ALPH/X'} | EventForm

[] | EventForm
null | EventForm
7 | EventForm
{} | EventForm
{'roster':{}} | EventForm
{'Deliver':1} | EventForm
{'deliver':0} | EventForm
{'deliver':-1} | EventForm
{'deliver':'1'} | EventForm
{'deliver':null} | EventForm
{'deliver':1.5} | EventForm
{'deliver':1,'at':null} | EventForm
{'deliver':1,'at':'ALP'} | EventForm
{'deliver':null,'restart':'ALPH'} | EventForm
{'restart':null} | EventForm
{'restart':'ALPHA'} | EventForm
{'restart':['ALPH']} | EventForm
{'at':'ALPH','bill':1,'resend':false} | EventForm
{'at':'ALPH','bill':1,'resend':1} | EventForm
{'at':'ALPH','bill':1,'resend':'true'} | EventForm
{'bill':1,'resend':true} | EventForm
{'at':'ALPH','resend':true} | EventForm
{'at':'ALPH','bill':0,'resend':true} | EventForm
{'ask':false,'at':'ALPH','bill':1} | EventForm
{'ask':true,'bill':1} | EventForm
{'ask':true,'at':'ALPH'} | EventForm
{'ask':true,'at':'ALPH','bill':'44136f'} | EventForm
{'at':'BETA','body':'','foreign':null} | EventForm
{'at':'BETA','body':'','foreign':'start'} | EventForm
{'at':'BETA','body':'','foreign':'DELETE'} | EventForm
{'body':'','foreign':'START'} | EventForm
{'at':'BETA','foreign':'START'} | EventForm
{'at':'BETA','body':{},'foreign':'START'} | EventForm
{'at':'BETA','bytes':'','checksum':'$','foreign':'PUT'} | EventForm
{'at':'BETA','bytes':'','checksum':'$','foreign':'PUT','reference':'447816bf'} | EventForm
{'at':'BETA','bytes':'','checksum':'447816bf','foreign':'PUT','reference':'%'} | EventForm
{'at':'BETA','checksum':'$','foreign':'PUT','reference':'%'} | EventForm
{'at':'BETA','foreign':'FINISH'} | EventForm
{'at':'ALPH','foreign':'START_REPLY','text':''} | EventForm
{'at':'ALPH','bill':1,'foreign':'START_REPLY'} | EventForm
{'at':'ALPH','bill':0,'foreign':'FINISH_REPLY','text':''} | EventForm
{'at':'ALPH','bill':1,'foreign':'FINISH_REPLY','text':null} | EventForm
{'show':0} | EventForm
{'show':'1'} | EventForm
"#;

#[test]
fn events_are_read_and_written(rt: HostRuntime) -> Result<(), Fail> {
    assert_table::<InJson<Events>, _>(&rt, WRITTEN)?;
    assert_table::<InJson<Events>, _>(&rt, WRONG)
}
