// Worked cases, as theorems about the rules.
#![tactic(auto)]

ghost use Rattle.std.specs.Prelude.{◌≡◌, length};
ghost use Rattle.worked.specs.Cases.{cases_of_sheets, AllAnswered};

// How many worked tables there are. The rules give to each of them just the answer that stands beside it.
pub fn sheet_cases() -> u8
    ensures count { result ≡ length cases_of_sheets }
    ensures answered { AllAnswered }
{
    7
}
