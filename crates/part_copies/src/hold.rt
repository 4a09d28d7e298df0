ghost use Rattle.std.specs.Prelude.{◌≡◌, OnErr, OnOk};
ghost use Rattle.oref_table.specs.Memory.{Memory};
ghost use Rattle.part_copies.specs.Holding.{AreLive, IsKept, tightened};

use obj_kinds::Lack;
use oref_table::{Oref, Table};

/// What holds of every table. It takes no memory.
pub fn standing(table: &Table)
    ensures { IsKept table.now }
{
    let _ = table.live();
}

/// Gives the holds back that were taken of these. It takes no memory.
pub fn let_all_go(table: &mut Table, numbers: &[u64])
    requires { (m : Memory) × IsKept m × AreLive m numbers.now × (table.old ≡ tightened m numbers.now) }
    ensures { (m : Memory) → IsKept m → table.old ≡ tightened m numbers.now → table.new ≡ m }
{
    for number in numbers {
        let held = table.unpark(Oref(*number));
        table.let_go(held);
    }
}

/// Holds each of the objects once more, all of them or none. `Count` where one has 2^64 - 1 holders already. It takes no memory.
pub fn hold_all(table: &mut Table, numbers: &[u64]) -> Result<(), Lack>
    requires { AreLive table.old numbers.now }
    ensures ok { OnOk result (table.new ≡ tightened table.old numbers.now) }
    ensures err { OnErr result (table.new ≡ table.old) }
{
    standing(table);
    for (at, number) in numbers.iter().enumerate() {
        match table.hold(Oref(*number)) {
            Ok(held) => {
                table.park(held);
            }
            Err(lack) => {
                let_all_go(table, &numbers[..at]);
                return Err(lack);
            }
        }
    }
    Ok(())
}
