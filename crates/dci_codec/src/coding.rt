//! The polar code of the blocks at a watch (3GPP TS 38.212, 5.3.1 and 5.4.1).
ghost use Rattle.std.specs.Prelude.{◌≡◌, ◌+◌, ◌*◌, Bool, List};
ghost use Rattle.monitor_plan.specs.Watch.{IsCarrying};
ghost use Rattle.polar_chain.specs.CodeOfBlock.{code_by};
ghost use Rattle.polar_chain.specs.CodeShape.{IsByTables, coded};

use monitor_plan::Watch;
use polar_chain::Code;
use table_files::Tables;

/// The code of the blocks at a watch: a payload with its parity, in 108 bits a CCE.
pub fn code_at(tables: &Tables, watch: &Watch) -> Code
    requires { IsCarrying watch.now }
    ensures tables { IsByTables tables.now.reliability tables.now.input_order
        (watch.now.size + 24) (108 * watch.now.level) result }
    ensures code { (block : List Bool) →
        coded result block ≡ code_by tables.now.reliability tables.now.input_order
        (watch.now.size + 24) (108 * watch.now.level) block }
{
    Code::of(
        tables,
        usize::from(watch.size) + 24,
        108 * usize::from(watch.level),
    )
}
