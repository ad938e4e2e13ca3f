#![tactic(auto)]

// The contest for C: the function of `contest::interface` under its own name, with its clause.
ghost use Rattle.std.specs.Prelude.{◌≡◌};
ghost use Rattle.contest.specs.Interface.{contest};

use contest::interface;

/// Driver against tape. A gap above its limit is refused as the other numbers are.
#[unsafe(no_mangle)]
pub extern "C" fn ctc_contest(gap: u32, writes: u32, stores: u32, spoilings: u32) -> u32
    ensures { result ≡ contest gap writes stores spoilings }
{
    interface::ctc_contest(gap, writes, stores, spoilings)
}
