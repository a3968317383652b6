// What the console keeps between two lines, and what every command shares.
#![tactic(auto)]

ghost use Rattle.std.specs.Prelude.{◌-◌, ◌<◌, ◌^◌, ◌≡◌};
ghost use Rattle.laws.specs.Define.{sum};
ghost use Rattle.console_session.specs.Sessions.{no_plan, start_session, with_floor, ended_with, begun_with, floorless, after_call};

use console_list::Entries;
use floor::{Answer, Counters, Floor};
use plan::{Entry, Plan};
use throughput::Throughput;

// The floor, the plan for it, the throughput of each hopper, what the last round's report says of each tile, the entries of
// a list that is being typed, how many lines were read, how many rounds the floor went, whether there is a floor, whether to
// go on. Without a floor a floor of zeros stands there, which the calls refuse: `start_session`, and what the calls promise.
#[derive(Clone, Copy)]
pub struct Session {
    pub floor: Floor,
    pub plan: Plan,
    pub records: [Throughput; 4],
    pub reasons: [u8; 64],
    pub missing: [u16; 64],
    pub entries: Entries,
    pub lines: u64,
    pub rounds: u64,
    pub made: bool,
    pub going: bool,
}

// A plan without entries.
pub fn no_plan() -> Plan
    ensures { result ≡ no_plan }
{
    Plan {
        entries: [Entry::ZERO; 64],
        count: 0,
    }
}

pub fn begin() -> Session
    ensures { result ≡ start_session }
{
    Session {
        floor: floor::zero_floor(),
        plan: no_plan(),
        records: console_throughput::begin(),
        reasons: [0; 64],
        missing: [0; 64],
        entries: console_list::none(false),
        lines: 0,
        rounds: 0,
        made: false,
        going: true,
    }
}

pub fn cannot(rt: &impl Print, s: Session, line: &[u8]) -> Session
    ensures { result ≡ s }
{
    console_say::unreadable(rt, s.lines, line);
    s
}

// A refused call changes nothing. Where no floor was made yet, the library refuses every call, because a floor of zeros
// isn't well formed.
pub fn refused(rt: &impl Print, s: Session, name: &str, n: u8) -> Session
    ensures { result ≡ s }
{
    if s.made {
        console_say::refused(rt, name, n);
    } else {
        console_say::no_floor(rt, name);
    }
    s
}

// The session that ends with this line.
pub fn ended(s: Session) -> Session
    ensures { result ≡ ended_with s }
{
    Session { going: false, ..s }
}

// The session with the floor changed.
pub fn with_floor(s: Session, floor: Floor) -> Session
    ensures { result ≡ with_floor s floor }
{
    Session { floor, ..s }
}

// After a call's answer: the floor that it gives, or the refusal told.
pub fn answered(rt: &impl Print, s: Session, name: &str, answer: Answer) -> Session
    ensures { result ≡ after_call s answer.refusal answer.floor }
{
    if answer.refusal != 0 {
        return refused(rt, s, name, answer.refusal);
    }
    with_floor(s, answer.floor)
}

// The canisters on a floor.
pub fn held(c: Counters) -> u64
    ensures { result ≡ c.booked - sum c.delivered }
{
    let d = c.delivered;
    let all = u64::from(d[0]) + u64::from(d[1]) + u64::from(d[2]) + u64::from(d[3]);
    u64::from(c.booked).saturating_sub(all)
}

// The session with another floor, whose throughput and plan begin anew: the numbers of a plan are those of its floor.
pub fn begun(rt: &impl Print, s: Session, floor: Floor) -> Session
    ensures { result ≡ begun_with s floor }
{
    if 0 < s.plan.count {
        let _ = println!(rt; "plan: no entries, its floor is gone");
    }
    Session {
        floor,
        plan: no_plan(),
        records: console_throughput::begin(),
        rounds: 0,
        made: true,
        ..s
    }
}

// The session without a floor.
pub fn without_floor(rt: &impl Print, s: Session) -> Session
    ensures { result ≡ floorless s }
{
    let next = begun(rt, s, floor::zero_floor());
    Session {
        made: false,
        ..next
    }
}
