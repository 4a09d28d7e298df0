//! The code of `LOCK`.

ghost use Rattle.std.specs.Prelude.{◌≡◌, ◌≤◌, ◌∷◌, false, map, length, OnOk};
ghost use Rattle.os_meaning.specs.Commands.{renews};
ghost use Rattle.os_meaning.specs.Tree.{claim_of};
ghost use Rattle.os_code.specs.Coding.{locks_code, timeout_code, untimed};
ghost use Rattle.os_compile.specs.Pieces.{claim_code, claims_code, lock_by, renewal_by, test_by, try_by, unlock_by, until_renewal};

use crate::emitted::Emitted;
use crate::expressions::{put_expression, put_subscripts};
use obj_kinds::NoMemory;
use os_code::Instruction;
use os_kinds::{Claim, LockAction};

/// Puts the code of the names of a `LOCK`. The first one without a sign gives back all locks, those behind it don't.
#[tactic(auto, using(crate::proofs::Blocks::locks_split))]
pub(crate) fn put_locks(out: &mut Emitted, line: u32, claims: &[Claim]) -> Result<(), NoMemory>
    ensures { OnOk result (out.new ≡ locks_code line false (map claim_of claims.now) out.old) }
{
    let (first, others) = claims.split_at(count_until_renewal(claims));
    put_claims(out, line, true, others)?;
    put_claims(out, line, false, first)
}

/// Whether a name has no sign.
fn is_renewal(action: LockAction) -> bool
    ensures { result ≡ renews action }
{
    match action {
        LockAction::Renew => true,
        LockAction::Add => false,
        LockAction::Remove => false,
    }
}

/// How many names there are up to the first without a sign, or in all where there is none.
fn count_until_renewal(claims: &[Claim]) -> usize
    ensures is { result ≡ until_renewal (map claim_of claims.now) }
    ensures within { result ≤ length claims.now }
{
    let mut count = 0;
    let mut rest = claims;
    while let Some((claim, more)) = rest.split_first() {
        count += 1;
        if is_renewal(claim.action) {
            return count;
        }
        rest = more;
    }
    count
}

/// Puts the code of names, the last one first, where it is said whether all locks have been given back before.
fn put_claims(out: &mut Emitted, line: u32, renewed: bool, claims: &[Claim]) -> Result<(), NoMemory>
    ensures { OnOk result (out.new ≡ claims_code line renewed (map claim_of claims.now) out.old) }
{
    for claim in claims.iter().rev() {
        put_claim(out, line, renewed, claim)?;
    }
    Ok(())
}

/// Puts the code of one name.
#[tactic(auto, using(crate::proofs::Trees::node_is, crate::proofs::Trees::count_is))]
fn put_claim(out: &mut Emitted, line: u32, renewed: bool, claim: &Claim) -> Result<(), NoMemory>
    ensures { OnOk result (out.new ≡ claim_code line renewed (claim_of claim.now) out.old) }
{
    out.put(Instruction::Point)?;
    out.put_drops_top(claim.global.subs.len())?;
    put_untimed(out, line, claim)?;
    put_lock(out, line, renewed, claim)?;
    put_timeout(out, line, claim)?;
    put_subscripts(out, line, claim.global.subs.as_slice())?;
    out.put(Instruction::Unit)
}

/// Puts what takes the timeout away, where there is one.
fn put_untimed(out: &mut Emitted, line: u32, claim: &Claim) -> Result<(), NoMemory>
    ensures { OnOk result (out.new ≡ untimed line (claim_of claim.now).timeout out.old) }
{
    match claim.timeout {
        None => Ok(()),
        Some(_) => out.put(Instruction::DropTop),
    }
}

/// Puts what gives a lock back or asks for it.
fn put_lock(out: &mut Emitted, line: u32, renewed: bool, claim: &Claim) -> Result<(), NoMemory>
    ensures { OnOk result (out.new ≡ lock_by line renewed (claim_of claim.now) out.old) }
{
    match claim.action {
        LockAction::Remove => put_unlock(out, line, claim),
        LockAction::Add => put_try_lock(out, line, claim),
        LockAction::Renew => put_renewal(out, line, renewed, claim),
    }
}

/// Puts what asks for a lock without a sign.
fn put_renewal(out: &mut Emitted, line: u32, renewed: bool, claim: &Claim) -> Result<(), NoMemory>
    ensures { OnOk result (out.new ≡ renewal_by line renewed (claim_of claim.now) out.old) }
{
    put_try_lock(out, line, claim)?;
    if renewed {
        return Ok(());
    }
    out.put(Instruction::UnlockAll)?;
    put_test_lock(out, line, claim)
}

#[tactic(auto, using(crate::proofs::Trees::node_is, crate::proofs::Trees::count_is, crate::proofs::Blocks::timed_is))]
fn put_test_lock(out: &mut Emitted, line: u32, claim: &Claim) -> Result<(), NoMemory>
    ensures { OnOk result (out.new ≡ test_by line (claim_of claim.now) ∷ out.old) }
{
    let global = out.copy(&claim.global.name)?;
    out.put(Instruction::TestLock {
        global,
        count: claim.global.subs.len(),
        timed: claim.timeout.is_some(),
        line,
    })
}

#[tactic(auto, using(crate::proofs::Trees::node_is, crate::proofs::Trees::count_is, crate::proofs::Blocks::timed_is))]
fn put_try_lock(out: &mut Emitted, line: u32, claim: &Claim) -> Result<(), NoMemory>
    ensures { OnOk result (out.new ≡ try_by line (claim_of claim.now) ∷ out.old) }
{
    let global = out.copy(&claim.global.name)?;
    out.put(Instruction::TryLock {
        global,
        count: claim.global.subs.len(),
        mode: claim.mode,
        timed: claim.timeout.is_some(),
        line,
    })
}

#[tactic(auto, using(crate::proofs::Trees::node_is, crate::proofs::Trees::count_is, crate::proofs::Blocks::timed_is))]
fn put_unlock(out: &mut Emitted, line: u32, claim: &Claim) -> Result<(), NoMemory>
    ensures { OnOk result (out.new ≡ unlock_by line (claim_of claim.now) ∷ out.old) }
{
    let global = out.copy(&claim.global.name)?;
    out.put(Instruction::Unlock {
        global,
        count: claim.global.subs.len(),
        mode: claim.mode,
        timed: claim.timeout.is_some(),
        line,
    })
}

/// Puts the code of the timeout, where there is one.
fn put_timeout(out: &mut Emitted, line: u32, claim: &Claim) -> Result<(), NoMemory>
    ensures { OnOk result (out.new ≡ timeout_code line (claim_of claim.now).timeout out.old) }
{
    match &claim.timeout {
        None => Ok(()),
        Some(timeout) => put_expression(out, line, timeout),
    }
}
