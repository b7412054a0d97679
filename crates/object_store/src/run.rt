//! Numbers of which none is left out.
ghost use Rattle.std.specs.Prelude.{◌≡◌, ℕ, true, IfSome, Some};
ghost use Rattle.object_store.specs.Areas.{is_listed};
ghost use Rattle.object_store.specs.Run.{is_in_run};
ghost use Rattle.object_store.specs.Searching.{AreFrom};

/// All numbers from the first to the last.
#[derive(Clone, Copy)]
pub struct Run {
    pub first: u32,
    pub last: u32,
}

/// The run that ascending numbers are. None where one is left out between the first and the last of them.
pub fn run_of(numbers: &[u32]) -> Option<Run>
    requires { AreFrom 0 numbers.now }
    ensures { IfSome result (λ run. (number : ℕ) → is_in_run (Some run) number ≡ true → is_listed numbers.now number ≡ true) }
{
    if numbers.is_empty() {
        return None;
    }
    let first = numbers[0];
    let last = numbers[numbers.len() - 1];
    if first as usize + (numbers.len() - 1) != last as usize {
        return None;
    }
    Some(Run { first, last })
}

/// Whether a number is in a run, if there is one.
#[inline]
pub fn is_in_run(run: Option<Run>, number: u32) -> bool
    ensures { result ≡ is_in_run run number }
{
    match run {
        Some(run) => run.first <= number && number <= run.last,
        None => false,
    }
}
