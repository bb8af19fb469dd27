// The calls of the crate songrafter, as a static library that a C program is linked with: include/songrafter.h, which says the same in C.
#![tactic(auto)]

ghost use Rattle.std.specs.Prelude.{◌≡◌, get_or, pos};
ghost use Rattle.run_saved.specs.Saved.{restored};
ghost use Rattle.songrafter.specs.Calls.{Admits, Opens, Grants, TellsField, version};

#[unsafe(no_mangle)]
pub extern "C" fn songrafter_admit(text: &[u8], table: &mut [u32], answer: &mut [u64]) -> usize
    ensures { Admits text.now table.old table.new answer.old answer.new result }
{
    songrafter::songrafter_admit(text, table, answer)
}

#[unsafe(no_mangle)]
pub extern "C" fn songrafter_open(
    table: &[u32],
    frame: &[u8],
    reading: &[u32],
    run: &mut [u8],
) -> usize
    ensures { Opens table.now frame.now reading.now run.old run.new result }
{
    songrafter::songrafter_open(table, frame, reading, run)
}

#[unsafe(no_mangle)]
pub extern "C" fn songrafter_grant(
    table: &[u32],
    frame: &[u8],
    reading: &mut [u32],
    run: &mut [u8],
    steps: u64,
    taken: &mut [u64],
) -> usize
    ensures { Grants table.now frame.now reading.old reading.new run.old run.new taken.old taken.new steps result }
{
    songrafter::songrafter_grant(table, frame, reading, run, steps, taken)
}

#[unsafe(no_mangle)]
pub extern "C" fn songrafter_field(
    table: &[u32],
    frame: &[u8],
    reading: &[u32],
    k: usize,
    field: &mut [u64],
) -> usize
    ensures { TellsField table.now frame.now reading.now k field.old field.new result }
{
    songrafter::songrafter_field(table, frame, reading, k, field)
}

// The version of include/songrafter.h that this is: 0.3.0.
#[unsafe(no_mangle)]
pub extern "C" fn songrafter_version() -> u32
    ensures { result ≡ version }
{
    songrafter::songrafter_version()
}

// Of a saved run, or of a closed one where the slice is none: verdict, steps taken, fields recorded, position, value of a variable.
#[unsafe(no_mangle)]
pub extern "C" fn songrafter_verdict(run: &[u8]) -> u32
    ensures { result ≡ (restored run.now).verdict }
{
    songrafter::songrafter_verdict(run)
}

#[unsafe(no_mangle)]
pub extern "C" fn songrafter_steps(run: &[u8]) -> u64
    ensures { result ≡ (restored run.now).steps }
{
    songrafter::songrafter_steps(run)
}

#[unsafe(no_mangle)]
pub extern "C" fn songrafter_fields(run: &[u8]) -> u64
    ensures { result ≡ (restored run.now).captures }
{
    songrafter::songrafter_fields(run)
}

#[unsafe(no_mangle)]
pub extern "C" fn songrafter_position(run: &[u8]) -> u64
    ensures { result ≡ (restored run.now).position }
{
    songrafter::songrafter_position(run)
}

#[unsafe(no_mangle)]
pub extern "C" fn songrafter_value(run: &[u8], k: usize) -> i64
    ensures { result ≡ get_or (restored run.now).values k (pos 0) }
{
    songrafter::songrafter_value(run, k)
}
