//! The next clause of a method that takes an exception.

ghost use Rattle.std.specs.Prelude.{◌≡◌, ℕ, Bool};
ghost use Rattle.cil_unwind.specs.Handlers as definition;

use body_reader::{Body, Clause, ClauseKind};

/// What is next for an exception that is thrown at an offset: a clause, by its number in the body's list, from 0.
#[derive(Clone, Copy, Debug, PartialEq, Eq)]
pub enum Handler {
    /// This clause catches it.
    Catch(u32),
    /// The finally block of this clause runs, and then the search goes on after it.
    Finally(u32),
    /// The fault block of this clause runs, and then the search goes on after it.
    Fault(u32),
    /// No clause from there on takes it.
    Nothing,
}

/// The first clause at the number `from` or after it whose protected block has the instruction at an offset of the code, and
/// which catches the exception, or is a finally or fault clause (ECMA-335 I.12.4.2.5). Whether a catch clause catches it is
/// what `is_match` answers for the token of its type; it is asked of clauses that cover the offset alone, in their order, up
/// to the first that it is true of. The call takes no memory.
pub fn next_handler<F: Fn(u32) -> bool>(body: &Body, at: u32, from: u32, is_match: F) -> Handler
    requires { F.IsAlwaysCallable is_match }
    ensures { (matches : ℕ → Bool) → definition.Decides (F.post is_match) matches
        → result ≡ definition.handler_of matches body.now.clauses at from }
{
    for k in from..body.clause_count() {
        let clause = body.clause(k);
        if is_handler(&clause, at, &is_match) {
            return handled_by(clause.kind, k);
        }
    }
    Handler::Nothing
}

/// Whether a clause covers an offset and takes the exception.
fn is_handler<F: Fn(u32) -> bool>(clause: &Clause, at: u32, is_match: &F) -> bool
    requires { F.IsAlwaysCallable is_match.now }
    ensures { (matches : ℕ → Bool) → definition.Decides (F.post is_match.now) matches
        → result ≡ definition.is_handler matches at clause.now }
{
    covers(clause, at) && takes(clause.kind, is_match)
}

/// Whether the protected block of a clause has the instruction at an offset.
fn covers(clause: &Clause, at: u32) -> bool
    ensures { result ≡ definition.covers at clause.now }
{
    clause.try_at <= at && at < clause.try_end
}

/// Whether a clause of a kind takes the exception.
fn takes<F: Fn(u32) -> bool>(kind: ClauseKind, is_match: &F) -> bool
    requires { F.IsAlwaysCallable is_match.now }
    ensures { (matches : ℕ → Bool) → definition.Decides (F.post is_match.now) matches
        → result ≡ definition.takes matches kind }
{
    match kind {
        ClauseKind::Catch(token) => is_match(token),
        ClauseKind::Finally | ClauseKind::Fault => true,
    }
}

/// The answer for a clause of a kind.
fn handled_by(kind: ClauseKind, k: u32) -> Handler
    ensures { result ≡ definition.handler kind k }
{
    match kind {
        ClauseKind::Catch(_) => Handler::Catch(k),
        ClauseKind::Finally => Handler::Finally(k),
        ClauseKind::Fault => Handler::Fault(k),
    }
}
