//! What each route asks with a body.
use crate::tests::making::{CHECKSUM, REFERENCE, same};
use ebl_base::{NoMemory, Party};
use http_heads::Route;
use http_requests::{Asked, asked_of};
use platform_requests::Request;
use std::alloc::Global;
use std::process::Abort;
use std::test::Fail;

// What is asked, and of which party. A start and a document are only called so if they have the bytes that were sent.
type Told = (&'static str, Option<Party>);

fn request_told(request: &Request, sent: &[u8]) -> Told {
    match request {
        Request::Start { body } if body.as_slice() == sent => ("start", None),
        Request::Put {
            reference,
            checksum,
            bytes,
        } if *reference == REFERENCE && *checksum == CHECKSUM && bytes.as_slice() == sent => {
            ("document", None)
        }
        Request::Finish { reference } if *reference == REFERENCE => ("finish", None),
        Request::Ask { bill } if *bill == CHECKSUM => ("question", None),
        Request::Command { party, .. } => ("command", Some(*party)),
        _ => ("another", None),
    }
}

fn asked_told(asked: &Option<Asked>, sent: &[u8]) -> Told {
    match asked {
        Some(Asked::Desk(request)) => request_told(request, sent),
        Some(Asked::Party(party)) => ("validation", Some(*party)),
        None => ("nothing", None),
    }
}

fn told(alloc: Global, route: Route, body: &[u8]) -> Result<Told, NoMemory> {
    let asked = asked_of(alloc, route, body)?;
    let told = asked_told(&asked, body);
    drop(asked);
    Ok(told)
}

// A route, a body, what is asked, and the party, if any. Nothing is asked if the body hasn't its form.
type Row = (Route, &'static str, &'static str, &'static str);

const ROWS: [Row; 20] = [
    // Any bytes are an envelope, and no bytes a document.
    (Route::Start, "\0{", "start", ""),
    (
        Route::Document {
            reference: REFERENCE,
            checksum: CHECKSUM,
        },
        "",
        "document",
        "",
    ),
    // A stated body of these two is ignored.
    (
        Route::Finish {
            reference: REFERENCE,
        },
        "{",
        "finish",
        "",
    ),
    (Route::Bill { bill: CHECKSUM }, "{", "question", ""),
    (Route::Validation, "", "nothing", ""),
    (Route::Validation, "{", "nothing", ""),
    (Route::Validation, "[]", "nothing", ""),
    (Route::Validation, "{}", "nothing", ""),
    (Route::Validation, r#"{"party":null}"#, "nothing", ""),
    (Route::Validation, r#"{"party":"BETA"}"#, "nothing", ""),
    (
        Route::Validation,
        r#"{"party":"beta/IMPORT"}"#,
        "nothing",
        "",
    ),
    (
        Route::Validation,
        r#"{"party":"BETA/IMPORT","party":"BETA/IMPORT"}"#,
        "nothing",
        "",
    ),
    (
        Route::Validation,
        r#" {"more":[1.5],"party":"BETA/IMPORT"} "#,
        "validation",
        "BETA/IMPORT",
    ),
    // Commands.
    (Route::Command, r#"{"party":"BETA/IMPORT"}"#, "nothing", ""),
    (
        Route::Command,
        r#"{"do":"SIGN","document":{}}"#,
        "nothing",
        "",
    ),
    (
        Route::Command,
        r#"{"do":"SIGN","document":{},"party":"BETA"}"#,
        "nothing",
        "",
    ),
    (
        Route::Command,
        r#"{"do":"SIGN","party":"BETA/IMPORT"}"#,
        "nothing",
        "",
    ),
    (
        Route::Command,
        r#"{"do":"SHIP","document":{},"party":"BETA/IMPORT"}"#,
        "nothing",
        "",
    ),
    (
        Route::Command,
        r#"[{"do":"SIGN","document":{},"party":"BETA/IMPORT"}]"#,
        "nothing",
        "",
    ),
    (
        Route::Command,
        r#"{"do":"SIGN","document":{},"party":"BETA/IMPORT"}"#,
        "command",
        "BETA/IMPORT",
    ),
];

fn asked_row<R: Abort>(rt: &R, alloc: Global, row: &Row) -> Result<(), NoMemory> {
    let (route, body, want, party) = row;
    let told = told(alloc, *route, body.as_bytes())?;
    let party = Party::from_text(party.as_bytes());
    same(rt, body, told, (*want, party));
    Ok(())
}

#[test]
fn what_bodies_ask_for(rt: HostRuntime) -> Result<(), Fail> {
    for row in &ROWS {
        asked_row(&rt, rt.alloc(), row)?;
    }
    Ok(())
}
