// What stands against an action before its cell is looked at, and its guard.
ghost use Rattle.std.specs.Prelude.{◌≡◌, ◌<◌, ◌≤◌, [], ◌∷◌, map, IfOk, false};
ghost use Rattle.protocol.specs.First.{when, first_number};
ghost use Rattle.protocol.specs.Names.{rule_number, Has};
ghost use Rattle.protocol.specs.Replies.{reply_number, number_of_reply};
ghost use Rattle.protocol.specs.Step.{malformed, missing, off_board};
ghost use Rattle.table.specs.Code.{Names, EachBoard, GuardGives};

use crate::cell::Masks;
use protocol::{Action, Board, Proc, Refused, Rule};

// A board that the action names is not below P. It is said of the action's numbers, as the definition of 5 is.
#[tactic(auto, unfolding(protocol::specs::Step::off_board))]
pub fn off_board(boards: usize, a: Action) -> bool
    ensures { result ≡ off_board boards a }
{
    (boards <= a.board as usize) | ((a.code == 5) & (boards <= a.to as usize))
}

// The procedure, unless an unused field is not 0, or the rule lacks the action: the conditions of 3 and 4, in their order.
fn named(unused: bool, lacking: bool, procedure: Proc) -> Result<Proc, Refused>
    ensures number { number_of_reply result ≡ first_number (when 3 unused ∷ when 4 lacking ∷ []) }
    ensures ok { IfOk result (λ p. p ≡ procedure) }
{
    if unused {
        Err(Refused::Malformed)
    } else if lacking {
        Err(Refused::Missing)
    } else {
        Ok(procedure)
    }
}

// The procedure of an action that is well formed and that the rule has: `to` is used by code 5 only, `value` by code 1 only.
pub fn procedure(rule: Rule, a: Action) -> Result<Proc, Refused>
    ensures { Names (rule_number rule) a result }
{
    let board = a.board as usize;
    let to = a.to != 0;
    let value = a.value != 0;
    let not_0 = Rule::IncoherentMemory.is_before(rule);
    let no_locks = rule.is_before(Rule::ExclusiveLocks0);
    match a.code {
        0 => named(to | value, false, Proc::Read(board)),
        1 => named(to, false, Proc::Write(board, a.value)),
        2 => named(to | value, not_0, Proc::Barrier(board)),
        3 => named(to | value, false, Proc::MtoC(board)),
        4 => named(to | value, false, Proc::CtoM(board)),
        5 => named(value, false, Proc::CtoC(board, a.to as usize)),
        6 => named(to | value, false, Proc::Drop(board)),
        7 => named(to | value, no_locks, Proc::Acquire(board)),
        8 => named(to | value, no_locks, Proc::Release(board)),
        // no action has such a code
        9..=255 => Err(Refused::Malformed),
    }
}

// The first test that refuses decides. The tests are evaluated before any of them does; `&` and `|` join them, as nothing in them can fail, and keep
// the proof in one piece.
fn first(tests: &[(bool, Refused)]) -> Result<(), Refused>
    ensures { number_of_reply result ≡ first_number (map (λ t. when (reply_number t.1) t.0) tests.now) }
{
    for &(refuses, reply) in tests {
        if refuses {
            return Err(reply);
        }
    }
    Ok(())
}

// The guard of a procedure that the rule has, by its board's copy and the current value.
pub fn guard(rule: Rule, m: Masks, copy: u32, current: u32, procedure: Proc) -> Result<(), Refused>
    requires { Has rule procedure × EachBoard (λ p. p < 16) procedure }
    ensures { GuardGives rule m.live.bits m.dirty.bits m.lock.bits copy current procedure (number_of_reply result) }
{
    let no_locks = rule.is_before(Rule::ExclusiveLocks0);
    match procedure {
        Proc::Read(p) => {
            let p = Board { number: p };
            first(&[
                (!m.live.has(p), Refused::NotLive),
                (
                    (rule == Rule::GlobalImpl) & (copy != current),
                    Refused::NotCurrent,
                ),
            ])
        }
        Proc::Write(p, _) => {
            let p = Board { number: p };
            first(&[
                (
                    (rule == Rule::GlobalImpl) & (!m.dirty.has(p) & m.dirty.has_another(p)),
                    Refused::DirtyElsewhere,
                ),
                (
                    (rule == Rule::CurrentCaches) & m.live.has_another(p),
                    Refused::AnotherCopy,
                ),
                (!no_locks & !m.lock.has(p), Refused::LockNotHeld),
            ])
        }
        Proc::Barrier(p) => {
            let p = Board { number: p };
            first(&[(m.live.has(p), Refused::StillLive)])
        }
        Proc::MtoC(p) => {
            let p = Board { number: p };
            first(&[
                (m.dirty.has(p), Refused::IsDirty),
                (
                    ((rule == Rule::CurrentCaches) | (rule == Rule::ExclusiveLocks0))
                        & m.dirty.has_another(p),
                    Refused::DirtyElsewhere,
                ),
                (!no_locks & m.lock.has_another(p), Refused::LockBars),
            ])
        }
        Proc::CtoM(p) => {
            let p = Board { number: p };
            first(&[(!m.dirty.has(p), Refused::NotDirty)])
        }
        Proc::CtoC(p, q) => {
            let from = Board { number: p };
            let to = Board { number: q };
            first(&[
                (!no_locks & !m.lock.is_empty(), Refused::LockBars),
                (m.dirty.has(to), Refused::IsDirty),
                (!m.live.has(from), Refused::NotLive),
            ])
        }
        Proc::Drop(p) => {
            let p = Board { number: p };
            first(&[(m.dirty.has(p), Refused::IsDirty)])
        }
        Proc::Acquire(p) => {
            let p = Board { number: p };
            first(&[
                (!m.lock.is_empty(), Refused::LockBars),
                (m.live.has_another(p), Refused::AnotherCopy),
            ])
        }
        Proc::Release(p) => {
            let p = Board { number: p };
            first(&[(
                (rule == Rule::ExclusiveLocks) & m.dirty.has(p),
                Refused::IsDirty,
            )])
        }
    }
}
