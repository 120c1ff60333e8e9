//! The first line of a scenario, and what the program is built for.
//!
//! It is built for the first lines below and no others, because each is compiled by itself. Any two words that scenarios
//! put together are together in one of them. `tools/scenarios.py` reads them here.

use crate::backends::Backends;
use crate::counting::Counting;
use crate::fault::{Fault, Mistake};
use crate::indexes::Filled;
use crate::interners::Interners;
use crate::level::{Level, run_calls};
use crate::linear::LinearIndex;
use crate::odd::{Bit, ByteCount, Constant, CountingHasher, Even, Keyed, Salted};
use crate::own::{SuiteBackend, SuiteHasher};
use crate::runs::{Runs, run_blocks};
use std::cell::Cell;
use std::hash::{BuildHasherDefault, DefaultHasher};
use std::marker::PhantomData;
use string_interner::StringInterner;
use string_interner::backend::{BucketBackend, BufferBackend, StringBackend};
use string_interner::dedup::{CopyIndex, FixedState, FoldState, Index, StdHasher, TaggedIndex};
use string_interner::scope::Scopes;
use string_interner::symbol::{Symbol, SymbolU16, SymbolU32, SymbolUsize};

/// SipHash-1-3 under keys that are 0.
type SipState = StdHasher<BuildHasherDefault<DefaultHasher>>;

/// An index of a caller.
type Linear = LinearIndex<SymbolU32>;

/// What the first line says, and the lines after it.
#[derive(Clone, Copy)]
pub struct Scenario<'t> {
    first: &'t str,
    level: &'t str,
    pub backend: &'t str,
    symbol: &'t str,
    pub hasher: &'t str,
    pub lines: &'t str,
    /// How many texts a hasher that counts has hashed.
    pub hashed: &'t Cell<usize>,
}

/// Reads the words of the first line, of which the last goes on to the end of the line.
pub fn read_scenario<'t>(text: &'t str, hashed: &'t Cell<usize>) -> Option<Scenario<'t>> {
    let (first, lines) = text.split_once('\n').unwrap_or((text, ""));
    let mut words = first.splitn(4, ' ');
    Some(Scenario {
        first,
        level: words.next()?,
        backend: words.next()?,
        symbol: words.next()?,
        hasher: words.next()?,
        lines,
        hashed,
    })
}

/// A fault in the first line.
pub fn blame_first_line<T>(mistake: Mistake) -> Result<T, Fault> {
    Err(Fault::Line { line: 1, mistake })
}

/// A fault in the words of the first line: one is unknown, or the program is not built for them together.
fn blame_words<T>(scenario: Scenario<'_>) -> Result<T, Fault> {
    let has_backend = matches!(
        scenario.backend,
        "string" | "bucket" | "buffer" | "counting" | "none"
    );
    let has_symbol = matches!(
        scenario.symbol,
        "SymbolU32" | "SymbolU16" | "SymbolUsize" | "usize" | "Even" | "Bit"
    );
    let has_hasher = matches!(
        scenario.hasher,
        "default" | "constant" | "length" | "salted" | "fold" | "sip" | "keyed" | "counting"
    );
    blame_first_line(match (has_backend, has_symbol, has_hasher) {
        (false, _, _) => Mistake::Backend,
        (_, false, _) => Mistake::Symbol,
        (_, _, false) => Mistake::Hasher,
        _ => Mistake::NotBuilt,
    })
}

/// Makes the calls of a scenario on what it is about.
fn run_on<L: Level + Drop>(
    rt: &HostRuntime,
    scenario: Scenario<'_>,
    level: L,
) -> Result<(), Fault> {
    let mut level = level;
    run_calls(rt, scenario, &mut level)
}

/// Makes the calls on interners.
fn run_interners<B: SuiteBackend, H: SuiteHasher, I: CopyIndex<B::Symbol> + Drop>(
    rt: &HostRuntime,
    scenario: Scenario<'_>,
    hasher: H,
) -> Result<(), Fault> {
    run_on(rt, scenario, Interners::<B, H, I>::new(rt.alloc(), hasher))
}

/// Makes the calls on interners with an `Index`.
fn run_under<B: SuiteBackend, H: SuiteHasher>(
    rt: &HostRuntime,
    scenario: Scenario<'_>,
) -> Result<(), Fault> {
    run_interners::<B, H, Index<B::Symbol>>(rt, scenario, H::default())
}

/// The same under the default hasher.
fn run_plain<B: SuiteBackend>(rt: &HostRuntime, scenario: Scenario<'_>) -> Result<(), Fault> {
    run_under::<B, FixedState>(rt, scenario)
}

/// Makes the calls on interners with a `TaggedIndex`.
fn run_tagged<B: SuiteBackend, H: SuiteHasher>(
    rt: &HostRuntime,
    scenario: Scenario<'_>,
) -> Result<(), Fault> {
    run_interners::<B, H, TaggedIndex<B::Symbol>>(rt, scenario, H::default())
}

/// Makes the calls on scopes.
fn run_scopes_with<B: SuiteBackend, H: SuiteHasher, I: CopyIndex<B::Symbol> + Drop>(
    rt: &HostRuntime,
    scenario: Scenario<'_>,
    hasher: H,
) -> Result<(), Fault> {
    let interner = StringInterner::<B, H, I>::with_hasher(rt.alloc(), hasher);
    run_on(rt, scenario, Scopes::new(rt.alloc(), interner))
}

/// The same with an `Index`, under the default hasher.
fn run_scopes<B: SuiteBackend>(rt: &HostRuntime, scenario: Scenario<'_>) -> Result<(), Fault> {
    run_scopes_with::<B, _, Index<B::Symbol>>(rt, scenario, FixedState)
}

/// The same with a `TaggedIndex`.
fn run_tagged_scopes<B: SuiteBackend, H: SuiteHasher>(
    rt: &HostRuntime,
    scenario: Scenario<'_>,
) -> Result<(), Fault> {
    run_scopes_with::<B, H, TaggedIndex<B::Symbol>>(rt, scenario, H::default())
}

/// Runs the commands.
fn run_commands_with<B: SuiteBackend, H: SuiteHasher, I: CopyIndex<B::Symbol> + Drop>(
    rt: &HostRuntime,
    scenario: Scenario<'_>,
) -> Result<(), Fault> {
    let mut runs = Runs::<B, H, I>::new(rt.alloc(), H::default());
    run_blocks(rt, scenario, &mut runs)
}

/// The same with an `Index`, under the default hasher.
fn run_commands<B: SuiteBackend>(rt: &HostRuntime, scenario: Scenario<'_>) -> Result<(), Fault> {
    run_commands_with::<B, FixedState, Index<B::Symbol>>(rt, scenario)
}

/// The same with a `TaggedIndex`.
fn run_tagged_commands<B: SuiteBackend, H: SuiteHasher>(
    rt: &HostRuntime,
    scenario: Scenario<'_>,
) -> Result<(), Fault> {
    run_commands_with::<B, H, TaggedIndex<B::Symbol>>(rt, scenario)
}

/// Makes the calls on a backend.
fn run_backend<B: SuiteBackend>(rt: &HostRuntime, scenario: Scenario<'_>) -> Result<(), Fault> {
    run_on(rt, scenario, Backends::<B>::new(rt.alloc()))
}

/// Makes the calls on an index over a backend.
fn run_filled<B: SuiteBackend, H: SuiteHasher>(
    rt: &HostRuntime,
    scenario: Scenario<'_>,
) -> Result<(), Fault> {
    run_on(rt, scenario, Filled::<B, H>::new(rt.alloc()))
}

/// A hasher that counts for a scenario.
fn count_hashed<'t>(scenario: Scenario<'t>) -> CountingHasher<'t> {
    CountingHasher {
        hashed: Some(scenario.hashed),
    }
}

/// Runs a scenario of level `interner` under the default hasher.
fn choose_interner(rt: &HostRuntime, scenario: Scenario<'_>) -> Result<(), Fault> {
    match scenario.first {
        "interner string SymbolU32 default" => run_plain::<StringBackend>(rt, scenario),
        "interner string SymbolU16 default" => run_plain::<StringBackend<SymbolU16>>(rt, scenario),
        "interner string SymbolUsize default" => run_plain::<StringBackend<SymbolUsize>>(
            rt, scenario,
        ),
        "interner string usize default" => run_plain::<StringBackend<usize>>(rt, scenario),
        "interner string Even default" => run_plain::<StringBackend<Even>>(rt, scenario),
        "interner string Bit default" => run_plain::<StringBackend<Bit>>(rt, scenario),
        "interner bucket SymbolU32 default" => run_plain::<BucketBackend>(rt, scenario),
        "interner bucket SymbolU16 default" => run_plain::<BucketBackend<SymbolU16>>(rt, scenario),
        "interner bucket Even default" => run_plain::<BucketBackend<Even>>(rt, scenario),
        "interner bucket Bit default" => run_plain::<BucketBackend<Bit>>(rt, scenario),
        "interner buffer SymbolU32 default" => run_plain::<BufferBackend>(rt, scenario),
        "interner buffer SymbolU16 default" => run_plain::<BufferBackend<SymbolU16>>(rt, scenario),
        "interner buffer Even default" => run_plain::<BufferBackend<Even>>(rt, scenario),
        "interner buffer Bit default" => run_plain::<BufferBackend<Bit>>(rt, scenario),
        "interner counting SymbolU32 default" => run_plain::<Counting>(rt, scenario),
        _ => blame_words(scenario),
    }
}

/// The same under another hasher.
fn choose_hasher(rt: &HostRuntime, scenario: Scenario<'_>) -> Result<(), Fault> {
    match scenario.first {
        "interner string SymbolU32 constant" => run_under::<StringBackend, Constant>(rt, scenario),
        "interner string SymbolU32 length" => run_under::<StringBackend, ByteCount>(rt, scenario),
        "interner string SymbolU32 salted" => run_under::<StringBackend, Salted>(rt, scenario),
        "interner string SymbolU32 fold" => run_under::<StringBackend, FoldState>(rt, scenario),
        "interner string SymbolU32 sip" => run_under::<StringBackend, SipState>(rt, scenario),
        "interner string SymbolU32 counting" => run_interners::<StringBackend, _, Index<SymbolU32>>(
            rt,
            scenario,
            count_hashed(scenario),
        ),
        "interner bucket SymbolU32 constant" => run_under::<BucketBackend, Constant>(rt, scenario),
        "interner bucket SymbolU32 length" => run_under::<BucketBackend, ByteCount>(rt, scenario),
        "interner bucket SymbolU32 salted" => run_under::<BucketBackend, Salted>(rt, scenario),
        "interner buffer SymbolU32 constant" => run_under::<BufferBackend, Constant>(rt, scenario),
        "interner buffer SymbolU32 length" => run_under::<BufferBackend, ByteCount>(rt, scenario),
        "interner buffer SymbolU32 salted" => run_under::<BufferBackend, Salted>(rt, scenario),
        "interner counting SymbolU32 constant" => run_under::<Counting, Constant>(rt, scenario),
        "interner counting SymbolU32 length" => run_under::<Counting, ByteCount>(rt, scenario),
        "interner counting SymbolU32 fold" => run_under::<Counting, FoldState>(rt, scenario),
        "interner counting SymbolU32 sip" => run_under::<Counting, SipState>(rt, scenario),
        "interner counting SymbolU32 keyed" => run_under::<Counting, Keyed>(rt, scenario),
        _ => blame_words(scenario),
    }
}

/// Runs a scenario of level `tagged`.
fn choose_tagged(rt: &HostRuntime, scenario: Scenario<'_>) -> Result<(), Fault> {
    match scenario.first {
        "tagged string SymbolU32 default" => run_tagged::<StringBackend, FixedState>(rt, scenario),
        "tagged string SymbolU32 constant" => run_tagged::<StringBackend, Constant>(rt, scenario),
        "tagged string SymbolU32 salted" => run_tagged::<StringBackend, Salted>(rt, scenario),
        "tagged string SymbolU32 fold" => run_tagged::<StringBackend, FoldState>(rt, scenario),
        "tagged string SymbolU32 sip" => run_tagged::<StringBackend, SipState>(rt, scenario),
        "tagged string SymbolU32 counting" => run_interners::<
            StringBackend,
            _,
            TaggedIndex<SymbolU32>,
        >(rt, scenario, count_hashed(scenario)),
        "tagged string SymbolUsize default" => run_tagged::<StringBackend<SymbolUsize>, FixedState>(
            rt, scenario,
        ),
        "tagged string usize default" => run_tagged::<StringBackend<usize>, FixedState>(
            rt, scenario,
        ),
        "tagged string Bit default" => run_tagged::<StringBackend<Bit>, FixedState>(rt, scenario),
        "tagged bucket SymbolU32 default" => run_tagged::<BucketBackend, FixedState>(rt, scenario),
        "tagged buffer SymbolU32 default" => run_tagged::<BufferBackend, FixedState>(rt, scenario),
        "tagged buffer SymbolU32 length" => run_tagged::<BufferBackend, ByteCount>(rt, scenario),
        "tagged buffer SymbolU16 default" => run_tagged::<BufferBackend<SymbolU16>, FixedState>(
            rt, scenario,
        ),
        "tagged buffer Even default" => run_tagged::<BufferBackend<Even>, FixedState>(rt, scenario),
        "tagged counting SymbolU32 default" => run_tagged::<Counting, FixedState>(rt, scenario),
        _ => blame_words(scenario),
    }
}

/// Runs a scenario of level `run` or `tagged_run`.
fn choose_run(rt: &HostRuntime, scenario: Scenario<'_>) -> Result<(), Fault> {
    match scenario.first {
        "run string SymbolU32 default" => run_commands::<StringBackend>(rt, scenario),
        "run string Even default" => run_commands::<StringBackend<Even>>(rt, scenario),
        "run string Bit default" => run_commands::<StringBackend<Bit>>(rt, scenario),
        "run bucket SymbolU32 default" => run_commands::<BucketBackend>(rt, scenario),
        "run bucket Even default" => run_commands::<BucketBackend<Even>>(rt, scenario),
        "run bucket Bit default" => run_commands::<BucketBackend<Bit>>(rt, scenario),
        "run buffer SymbolU32 default" => run_commands::<BufferBackend>(rt, scenario),
        "run buffer Even default" => run_commands::<BufferBackend<Even>>(rt, scenario),
        "run counting SymbolU32 default" => run_commands::<Counting>(rt, scenario),
        "tagged_run string Bit default" => run_tagged_commands::<StringBackend<Bit>, FixedState>(
            rt, scenario,
        ),
        "tagged_run bucket SymbolU32 fold" => run_tagged_commands::<BucketBackend, FoldState>(
            rt, scenario,
        ),
        "tagged_run buffer Even default" => run_tagged_commands::<BufferBackend<Even>, FixedState>(
            rt, scenario,
        ),
        _ => blame_words(scenario),
    }
}

/// Runs a scenario of level `scopes` or `tagged_scopes`.
fn choose_scopes(rt: &HostRuntime, scenario: Scenario<'_>) -> Result<(), Fault> {
    match scenario.first {
        "scopes string SymbolU32 default" => run_scopes::<StringBackend>(rt, scenario),
        "scopes string SymbolU32 counting" => run_scopes_with::<StringBackend, _, Index<SymbolU32>>(
            rt,
            scenario,
            count_hashed(scenario),
        ),
        "scopes string Bit default" => run_scopes::<StringBackend<Bit>>(rt, scenario),
        "scopes bucket SymbolU32 default" => run_scopes::<BucketBackend>(rt, scenario),
        "scopes bucket Bit default" => run_scopes::<BucketBackend<Bit>>(rt, scenario),
        "scopes buffer SymbolU32 default" => run_scopes::<BufferBackend>(rt, scenario),
        "scopes counting SymbolU32 default" => run_scopes::<Counting>(rt, scenario),
        "tagged_scopes string SymbolU32 fold" => run_tagged_scopes::<StringBackend, FoldState>(
            rt, scenario,
        ),
        "tagged_scopes bucket Bit default" => run_tagged_scopes::<BucketBackend<Bit>, FixedState>(
            rt, scenario,
        ),
        "tagged_scopes buffer SymbolU32 fold" => run_tagged_scopes::<BufferBackend, FoldState>(
            rt, scenario,
        ),
        _ => blame_words(scenario),
    }
}

/// Runs a scenario of level `backend`.
fn choose_backend(rt: &HostRuntime, scenario: Scenario<'_>) -> Result<(), Fault> {
    match scenario.first {
        "backend string SymbolU32 default" => run_backend::<StringBackend>(rt, scenario),
        "backend string SymbolU16 default" => run_backend::<StringBackend<SymbolU16>>(rt, scenario),
        "backend string SymbolUsize default" => run_backend::<StringBackend<SymbolUsize>>(
            rt, scenario,
        ),
        "backend string usize default" => run_backend::<StringBackend<usize>>(rt, scenario),
        "backend string Even default" => run_backend::<StringBackend<Even>>(rt, scenario),
        "backend string Bit default" => run_backend::<StringBackend<Bit>>(rt, scenario),
        "backend bucket SymbolU32 default" => run_backend::<BucketBackend>(rt, scenario),
        "backend bucket SymbolU16 default" => run_backend::<BucketBackend<SymbolU16>>(rt, scenario),
        "backend bucket Even default" => run_backend::<BucketBackend<Even>>(rt, scenario),
        "backend bucket Bit default" => run_backend::<BucketBackend<Bit>>(rt, scenario),
        "backend buffer SymbolU32 default" => run_backend::<BufferBackend>(rt, scenario),
        "backend buffer SymbolU16 default" => run_backend::<BufferBackend<SymbolU16>>(rt, scenario),
        "backend buffer Even default" => run_backend::<BufferBackend<Even>>(rt, scenario),
        "backend buffer Bit default" => run_backend::<BufferBackend<Bit>>(rt, scenario),
        "backend counting SymbolU32 default" => run_backend::<Counting>(rt, scenario),
        _ => blame_words(scenario),
    }
}

/// Runs a scenario of level `index` or `linear`.
fn choose_index(rt: &HostRuntime, scenario: Scenario<'_>) -> Result<(), Fault> {
    match scenario.first {
        "index string SymbolU32 default" => run_filled::<StringBackend, FixedState>(rt, scenario),
        "index string SymbolU32 constant" => run_filled::<StringBackend, Constant>(rt, scenario),
        "index string SymbolU32 length" => run_filled::<StringBackend, ByteCount>(rt, scenario),
        "index string SymbolU32 salted" => run_filled::<StringBackend, Salted>(rt, scenario),
        "index counting SymbolU32 default" => run_filled::<Counting, FixedState>(rt, scenario),
        "index counting SymbolU32 constant" => run_filled::<Counting, Constant>(rt, scenario),
        "index counting SymbolU32 length" => run_filled::<Counting, ByteCount>(rt, scenario),
        "index counting SymbolU32 salted" => run_filled::<Counting, Salted>(rt, scenario),
        "linear string SymbolU32 default" => run_interners::<StringBackend, _, Linear>(
            rt, scenario, FixedState,
        ),
        "linear counting SymbolU32 default" => run_interners::<Counting, _, Linear>(
            rt, scenario, FixedState,
        ),
        _ => blame_words(scenario),
    }
}

/// Runs a scenario of level `symbol`.
fn choose_symbol(rt: &HostRuntime, scenario: Scenario<'_>) -> Result<(), Fault> {
    match scenario.first {
        "symbol none SymbolU32 default" => run_calls(rt, scenario, &mut PhantomData::<SymbolU32>),
        "symbol none SymbolU16 default" => run_calls(rt, scenario, &mut PhantomData::<SymbolU16>),
        "symbol none SymbolUsize default" => run_calls(
            rt,
            scenario,
            &mut PhantomData::<SymbolUsize>,
        ),
        "symbol none usize default" => run_calls(rt, scenario, &mut PhantomData::<usize>),
        "symbol none Even default" => run_calls(rt, scenario, &mut PhantomData::<Even>),
        "symbol none Bit default" => run_calls(rt, scenario, &mut PhantomData::<Bit>),
        _ => blame_words(scenario),
    }
}

/// Runs a scenario.
pub fn run_scenario(rt: &HostRuntime, scenario: Scenario<'_>) -> Result<(), Fault> {
    match (scenario.level, scenario.hasher) {
        ("interner", "default") => choose_interner(rt, scenario),
        ("interner", _) => choose_hasher(rt, scenario),
        ("tagged", _) => choose_tagged(rt, scenario),
        ("run" | "tagged_run", _) => choose_run(rt, scenario),
        ("scopes" | "tagged_scopes", _) => choose_scopes(rt, scenario),
        ("backend", _) => choose_backend(rt, scenario),
        ("index" | "linear", _) => choose_index(rt, scenario),
        ("symbol", _) => choose_symbol(rt, scenario),
        _ => blame_first_line(Mistake::Level),
    }
}
