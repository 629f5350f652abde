//! Every kind of transaction in every state, by a table written by hand.
use crate::tests::comparing::{same, same_at};
use ebl_base::{Kind, Moment, Party, Transaction};
use std::alloc::{AllocError, Global};
use std::process::Abort;
use std::test::Fail;
use title_fold::{
    FoldAt, FoldRefusal, Title, apply, carrier, fold, moves, possessor, title_holder,
};

/// Who acts in the tests.
#[derive(Clone, Copy)]
enum Role {
    Carrier,
    Possessor,
    Holder,
    Stranger,
    Another,
}

/// A title by the roles of those who have part in it.
#[derive(Clone, Copy)]
enum State {
    Signed,
    /// The possessor and the title holder.
    Live(Role, Role),
    /// A surrender, and who asked for it.
    Asked(Kind, Role),
    Ended(Kind),
}

/// A kind, who acts, and for whom.
type Act = (Kind, Role, Option<Role>);

/// The parties of the tests.
#[derive(Clone, Copy)]
struct Cast {
    carrier: Party,
    possessor: Party,
    holder: Party,
    stranger: Party,
    another: Party,
    time: Moment,
}

impl Cast {
    fn new() -> Option<Cast> {
        Some(Cast {
            carrier: Party::from_text(b"ALPH/CARRIER")?,
            possessor: Party::from_text(b"ALPH/EXPORT")?,
            holder: Party::from_text(b"BETA/BANK")?,
            stranger: Party::from_text(b"GAMM/NOBODY")?,
            another: Party::from_text(b"BETA/IMPORT")?,
            time: Moment::try_new(1000)?,
        })
    }

    fn party(&self, role: Role) -> Party {
        match role {
            Role::Carrier => self.carrier,
            Role::Possessor => self.possessor,
            Role::Holder => self.holder,
            Role::Stranger => self.stranger,
            Role::Another => self.another,
        }
    }

    fn title(&self, state: State) -> Title {
        let carrier = self.carrier;
        match state {
            State::Signed => Title::Signed { carrier },
            State::Live(possessor, holder) => Title::Live {
                carrier,
                possessor: self.party(possessor),
                holder: self.party(holder),
            },
            State::Asked(kind, by) => Title::Asked {
                kind,
                carrier,
                by: self.party(by),
            },
            State::Ended(kind) => Title::Ended { kind, carrier },
        }
    }

    fn title_if_any(&self, state: Option<State>) -> Option<Title> {
        match state {
            Some(state) => Some(self.title(state)),
            None => None,
        }
    }

    fn party_if_any(&self, role: Option<Role>) -> Option<Party> {
        match role {
            Some(role) => Some(self.party(role)),
            None => None,
        }
    }

    fn transaction(&self, act: Act) -> Transaction {
        let (kind, actor, recipient) = act;
        Transaction {
            kind,
            actor: self.party(actor),
            recipient: self.party_if_any(recipient),
            time: self.time,
        }
    }
}

/// 0 where the transaction is taken, else the number of the rule, as a digit.
fn digit(answer: Result<Title, FoldRefusal>) -> u8 {
    match answer {
        Ok(_) => b'0',
        Err(FoldRefusal::F1) => b'1',
        Err(FoldRefusal::F2) => b'2',
        Err(FoldRefusal::F3) => b'3',
        Err(FoldRefusal::F4) => b'4',
        Err(FoldRefusal::F5) => b'5',
        Err(FoldRefusal::F6) => b'6',
        Err(FoldRefusal::F7) => b'7',
        Err(FoldRefusal::F8) => b'8',
        Err(FoldRefusal::F9) => b'9',
    }
}

/// The digit for an act on a title.
fn rule(cast: &Cast, before: Option<Title>, act: Act) -> u8 {
    digit(apply(before, &cast.transaction(act)))
}

const ACTORS: [Role; 4] = [Role::Carrier, Role::Possessor, Role::Holder, Role::Stranger];

/// The answers to the carrier, the possessor, the title holder and a stranger for this recipient.
fn answers(cast: &Cast, before: Option<Title>, kind: Kind, recipient: Option<Role>) -> [u8; 4] {
    let mut told = [0; 4];
    for i in 0..4 {
        told[i] = rule(cast, before, (kind, ACTORS[i], recipient));
    }
    told
}

fn expect_row(rt: &impl Abort, cast: &Cast, before: Option<Title>, row: &str) -> Result<(), Fail> {
    let (name, wanted) = row.split_once(' ').ok_or("a kind")?;
    let (alone, handed) = wanted.split_once(' ').ok_or("two groups")?;
    let kind = Kind::from_text(name.as_bytes()).ok_or("a kind")?;
    let alone_told = answers(cast, before, kind, None);
    let handed_told = answers(cast, before, kind, Some(Role::Another));
    let seen = (alone_told.as_slice(), handed_told.as_slice());
    same_at(
        rt,
        &(row, before),
        seen,
        (alone.as_bytes(), handed.as_bytes()),
    );
    Ok(())
}

/// The answers on a title.
fn expect_rows(
    rt: &impl Abort,
    cast: &Cast,
    before: Option<State>,
    rows: &str,
) -> Result<(), Fail> {
    let title = cast.title_if_any(before);
    for row in rows.lines() {
        expect_row(rt, cast, title, row)?;
    }
    Ok(())
}

// A row is a kind, and the answers to the carrier, the possessor, the title holder and a stranger: without a recipient,
// and for another party.
const ON_NO_TITLE: &str = "SIGN 0000 5555\n\
    ISSUE 2222 2222\n\
    ENDORSE 2222 2222\n\
    TRANSFER 2222 2222\n\
    SURRENDER_FOR_DELIVERY 2222 2222\n\
    SURRENDER_FOR_AMENDMENT 2222 2222\n\
    SURRENDER_ACCEPTED 2222 2222\n\
    SURRENDER_REFUSED 2222 2222";

const ON_SIGNED: &str = "SIGN 1111 1111\n\
    ISSUE 5555 0666\n\
    ENDORSE 4444 4444\n\
    TRANSFER 4444 4444\n\
    SURRENDER_FOR_DELIVERY 4444 4444\n\
    SURRENDER_FOR_AMENDMENT 4444 4444\n\
    SURRENDER_ACCEPTED 4444 4444\n\
    SURRENDER_REFUSED 4444 4444";

// One party has possession, and another holds the title.
const LIVE_OF_TWO: State = State::Live(Role::Possessor, Role::Holder);

const ON_LIVE_OF_TWO: &str = "SIGN 1111 1111\n\
    ISSUE 4444 4444\n\
    ENDORSE 5555 7877\n\
    TRANSFER 5555 7077\n\
    SURRENDER_FOR_DELIVERY 7877 5555\n\
    SURRENDER_FOR_AMENDMENT 7877 5555\n\
    SURRENDER_ACCEPTED 4444 4444\n\
    SURRENDER_REFUSED 4444 4444";

// The possessor holds the title too.
const LIVE_OF_ONE: State = State::Live(Role::Possessor, Role::Possessor);

const ON_LIVE_OF_ONE: &str = "SIGN 1111 1111\n\
    ISSUE 4444 4444\n\
    ENDORSE 5555 7077\n\
    TRANSFER 5555 7077\n\
    SURRENDER_FOR_DELIVERY 7077 5555\n\
    SURRENDER_FOR_AMENDMENT 7077 5555\n\
    SURRENDER_ACCEPTED 4444 4444\n\
    SURRENDER_REFUSED 4444 4444";

const ON_ASKED: &str = "SIGN 1111 1111\n\
    ISSUE 4444 4444\n\
    ENDORSE 4444 4444\n\
    TRANSFER 4444 4444\n\
    SURRENDER_FOR_DELIVERY 4444 4444\n\
    SURRENDER_FOR_AMENDMENT 4444 4444\n\
    SURRENDER_ACCEPTED 0666 5555\n\
    SURRENDER_REFUSED 0666 5555";

const ON_ENDED: &str = "SIGN 1111 1111\n\
    ISSUE 3333 3333\n\
    ENDORSE 3333 3333\n\
    TRANSFER 3333 3333\n\
    SURRENDER_FOR_DELIVERY 3333 3333\n\
    SURRENDER_FOR_AMENDMENT 3333 3333\n\
    SURRENDER_ACCEPTED 3333 3333\n\
    SURRENDER_REFUSED 3333 3333";

const DELIVERY: Kind = Kind::SurrenderForDelivery;

const AMENDMENT: Kind = Kind::SurrenderForAmendment;

const ON_TITLES: [(Option<State>, &str); 8] = [
    (None, ON_NO_TITLE),
    (Some(State::Signed), ON_SIGNED),
    (Some(LIVE_OF_TWO), ON_LIVE_OF_TWO),
    (Some(LIVE_OF_ONE), ON_LIVE_OF_ONE),
    (Some(State::Asked(DELIVERY, Role::Possessor)), ON_ASKED),
    (Some(State::Ended(DELIVERY)), ON_ENDED),
    (Some(State::Asked(AMENDMENT, Role::Possessor)), ON_ASKED),
    (Some(State::Ended(AMENDMENT)), ON_ENDED),
];

#[test]
fn first_rule_of_each_kind_on_each_title(rt: HostRuntime) -> Result<(), Fail> {
    let cast = Cast::new().ok_or("a party")?;
    for (before, rows) in &ON_TITLES {
        expect_rows(&rt, &cast, *before, rows)?;
    }
    Ok(())
}

// A title, a kind, who hands on to itself, and the number of the rule.
const TO_ITSELF: [(State, Kind, Role, u8); 7] = [
    (LIVE_OF_ONE, Kind::Endorse, Role::Possessor, b'9'),
    (LIVE_OF_ONE, Kind::Transfer, Role::Possessor, b'9'),
    (LIVE_OF_TWO, Kind::Transfer, Role::Possessor, b'9'),
    // Who acts is asked before.
    (LIVE_OF_TWO, Kind::Endorse, Role::Possessor, b'8'),
    (LIVE_OF_TWO, Kind::Endorse, Role::Holder, b'7'),
    (LIVE_OF_TWO, Kind::Transfer, Role::Holder, b'7'),
    // An ISSUE isn't handing on.
    (State::Signed, Kind::Issue, Role::Carrier, b'0'),
];

#[test]
fn nothing_is_handed_to_the_actor_itself(rt: HostRuntime) -> Result<(), Fail> {
    let cast = Cast::new().ok_or("a party")?;
    for &(before, kind, actor, want) in &TO_ITSELF {
        let seen = rule(&cast, Some(cast.title(before)), (kind, actor, Some(actor)));
        same_at(&rt, &kind, seen, want);
    }
    Ok(())
}

/// An act with the title after it, its possessor and its title holder, and whether it moves the bill.
type Step = (Act, State, Role, Role, bool);

const SIGN: Act = (Kind::Sign, Role::Carrier, None);

const ISSUE: Act = (Kind::Issue, Role::Carrier, Some(Role::Possessor));

const TRANSFER: Act = (Kind::Transfer, Role::Possessor, Some(Role::Another));

const TRANSFER_BACK: Act = (Kind::Transfer, Role::Another, Some(Role::Possessor));

const TRANSFER_TO_ITSELF: Act = (Kind::Transfer, Role::Possessor, Some(Role::Possessor));

const ENDORSE: Act = (Kind::Endorse, Role::Possessor, Some(Role::Holder));

const TRANSFER_TO_HOLDER: Act = (Kind::Transfer, Role::Possessor, Some(Role::Holder));

const REFUSE: Act = (Kind::SurrenderRefused, Role::Carrier, None);

const ACCEPT: Act = (Kind::SurrenderAccepted, Role::Carrier, None);

const LIVE_OF_HOLDER: State = State::Live(Role::Holder, Role::Holder);

const STEPS: [Step; 10] = [
    (SIGN, State::Signed, Role::Carrier, Role::Carrier, false),
    (ISSUE, LIVE_OF_ONE, Role::Possessor, Role::Possessor, false),
    (
        TRANSFER,
        State::Live(Role::Another, Role::Possessor),
        Role::Another,
        Role::Possessor,
        true,
    ),
    (
        TRANSFER_BACK,
        LIVE_OF_ONE,
        Role::Possessor,
        Role::Possessor,
        true,
    ),
    (ENDORSE, LIVE_OF_TWO, Role::Possessor, Role::Holder, false),
    (
        TRANSFER_TO_HOLDER,
        LIVE_OF_HOLDER,
        Role::Holder,
        Role::Holder,
        true,
    ),
    (
        (DELIVERY, Role::Holder, None),
        State::Asked(DELIVERY, Role::Holder),
        Role::Carrier,
        Role::Holder,
        true,
    ),
    (REFUSE, LIVE_OF_HOLDER, Role::Holder, Role::Holder, true),
    (
        (AMENDMENT, Role::Holder, None),
        State::Asked(AMENDMENT, Role::Holder),
        Role::Carrier,
        Role::Holder,
        true,
    ),
    (
        ACCEPT,
        State::Ended(AMENDMENT),
        Role::Carrier,
        Role::Carrier,
        false,
    ),
];

// A title, its carrier, its possessor and its title holder, and whether the bill moved.
type Seen = (Title, Party, Party, Party, bool);

fn seen(before: Option<Title>, next: Title) -> Seen {
    let moved = moves(before, next);
    (
        next,
        carrier(next),
        possessor(next),
        title_holder(next),
        moved,
    )
}

fn wanted(cast: &Cast, step: &Step) -> Seen {
    let &(_, state, has, holds, moved) = step;
    let title = cast.title(state);
    (
        title,
        cast.carrier,
        cast.party(has),
        cast.party(holds),
        moved,
    )
}

fn step_row(
    rt: &impl Abort,
    cast: &Cast,
    before: Option<Title>,
    step: &Step,
) -> Result<Title, Fail> {
    let act = step.0;
    let next = apply(before, &cast.transaction(act)).map_err(|_| "refused")?;
    same_at(rt, &act.0, seen(before, next), wanted(cast, step));
    Ok(next)
}

#[test]
fn titles_of_a_whole_life(rt: HostRuntime) -> Result<(), Fail> {
    let cast = Cast::new().ok_or("a party")?;
    let mut title = None;
    for step in &STEPS {
        title = Some(step_row(&rt, &cast, title, step)?);
    }
    Ok(())
}

fn transactions(alloc: Global, cast: &Cast, acts: &[Act]) -> Result<Vec<Transaction>, AllocError> {
    let mut list = Vec::new(alloc);
    for &act in acts {
        list.push(cast.transaction(act))?;
    }
    Ok(list)
}

// Acts that are all taken, and the title after them.
const TAKEN: [(&[Act], Option<State>); 3] = [
    (&[], None),
    (&[SIGN, ISSUE], Some(LIVE_OF_ONE)),
    (
        &[SIGN, ISSUE, TRANSFER],
        Some(State::Live(Role::Another, Role::Possessor)),
    ),
];

// Acts, the place of the first that is refused, and the rule that refuses it.
const REFUSED: [(&[Act], usize, FoldRefusal); 6] = [
    (&[SIGN, ISSUE, TRANSFER_TO_ITSELF], 2, FoldRefusal::F9),
    (&[SIGN, ISSUE, ACCEPT], 2, FoldRefusal::F4),
    // What follows a refusal isn't looked at.
    (
        &[SIGN, ISSUE, TRANSFER_TO_ITSELF, TRANSFER],
        2,
        FoldRefusal::F9,
    ),
    (&[SIGN, ISSUE, TRANSFER, TRANSFER, SIGN], 3, FoldRefusal::F7),
    (&[ISSUE, SIGN], 0, FoldRefusal::F2),
    (&[SIGN, SIGN], 1, FoldRefusal::F1),
];

fn fold_row(
    rt: &(impl Abort + AllocGlobal),
    cast: &Cast,
    acts: &[Act],
    want: Result<Option<Title>, FoldAt>,
) -> Result<(), Fail> {
    let list = transactions(rt.alloc(), cast, acts)?;
    same(rt, &"a fold", fold(&list), want);
    Ok(())
}

#[test]
fn a_fold_stops_at_the_first_refusal(rt: HostRuntime) -> Result<(), Fail> {
    let cast = Cast::new().ok_or("a party")?;
    for &(acts, state) in &TAKEN {
        fold_row(&rt, &cast, acts, Ok(cast.title_if_any(state)))?;
    }
    for &(acts, place, rule) in &REFUSED {
        fold_row(&rt, &cast, acts, Err(FoldAt { place, rule }))?;
    }
    Ok(())
}
