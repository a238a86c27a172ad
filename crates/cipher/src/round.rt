// A round of AES through the table: for each column four look-ups, one for each row that it takes after the rows have shifted.
ghost use Rattle.std.specs.Prelude.{◌≡◌, [], ◌∷◌};
ghost use Rattle.cipher.specs.State.{sub_bytes, shift_rows, mix_column, mix_columns, add_round_key};
ghost use Rattle.tables.specs.SBox.{s_box};
ghost use Rattle.words.specs.Bytes.{at};
ghost use Rattle.words.specs.Words.{bytes, state_of};

use tables::round_table::RoundTable;
use words::Columns;

// A state whose columns are each made of the four columns that shifting the rows brings to it.
fn shifted<F: Fn(u32, u32, u32, u32) -> u32>(state: Columns, column: F) -> Columns
    requires { F.IsAlwaysCallable column }
    ensures { F.post column state.c0 state.c1 state.c2 state.c3 result.c0
        × F.post column state.c1 state.c2 state.c3 state.c0 result.c1
        × F.post column state.c2 state.c3 state.c0 state.c1 result.c2
        × F.post column state.c3 state.c0 state.c1 state.c2 result.c3 }
{
    Columns {
        c0: column(state.c0, state.c1, state.c2, state.c3),
        c1: column(state.c1, state.c2, state.c3, state.c0),
        c2: column(state.c2, state.c3, state.c0, state.c1),
        c3: column(state.c3, state.c0, state.c1, state.c2),
    }
}

// A round with its key. The order of the terms is the one that the compiler makes the fastest loop of.
#[tactic(auto, using(crate::proofs::Mixing::mixed_word, crate::proofs::Mixing::whole_round))]
pub fn whole(table: RoundTable, key: Columns, state: Columns) -> Columns
    ensures { state_of result ≡ add_round_key (mix_columns (shift_rows (sub_bytes (state_of state)))) (state_of key) }
{
    let mixed = |first: u32, second: u32, third: u32, fourth: u32|
        ensures { bytes 4 result
            ≡ mix_column (s_box (at (bytes 4 first) 0)) (s_box (at (bytes 4 second) 1))
            (s_box (at (bytes 4 third) 2)) (s_box (at (bytes 4 fourth) 3)) }
    {
        table.window(words::byte(first, 0), 0)
            ^ table.window(words::byte(fourth, 3), 1)
            ^ table.window(words::byte(third, 2), 2)
            ^ table.window(words::byte(second, 1), 3)
    };
    shifted(state, mixed) ^ key
}

// The last round, with its key; it does not mix.
#[tactic(auto, using(crate::proofs::Mixing::unmixed_word, crate::proofs::Mixing::last_round))]
pub fn last(table: RoundTable, key: Columns, state: Columns) -> Columns
    ensures { state_of result ≡ add_round_key (shift_rows (sub_bytes (state_of state))) (state_of key) }
{
    let unmixed = |first: u32, second: u32, third: u32, fourth: u32|
        ensures { bytes 4 result
            ≡ s_box (at (bytes 4 first) 0) ∷ s_box (at (bytes 4 second) 1)
            ∷ s_box (at (bytes 4 third) 2) ∷ s_box (at (bytes 4 fourth) 3) ∷ [] }
    {
        u32::from_le_bytes([
            table.substituted(words::byte(first, 0)),
            table.substituted(words::byte(second, 1)),
            table.substituted(words::byte(third, 2)),
            table.substituted(words::byte(fourth, 3)),
        ])
    };
    shifted(state, unmixed) ^ key
}
