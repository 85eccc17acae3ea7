// The table of worked runs.
ghost use Rattle.std.specs.Prelude.{◌≡◌, length};
ghost use Rattle.std.specs.List.{AllByRecursion};
ghost use Rattle.runs.specs.Runs.{Holds, runs};

// How many worked runs there are. Each of them holds.
pub fn worked_runs() -> usize
    ensures count { result ≡ length runs }
    ensures hold { AllByRecursion Holds runs }
{
    10
}
