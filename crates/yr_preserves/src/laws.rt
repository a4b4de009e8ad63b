//! Laws of the definitions.

ghost use Rattle.std.specs.Prelude.{◌≡◌, ℕ, List};
ghost use Rattle.yr_values.specs.Values.{Value};
ghost use Rattle.yr_answer.specs.declared.options.ReportOptions.{ReportOptions};
ghost use Rattle.yr_meaning.specs.Scan.{ModuleValues, scan_report};
ghost use Rattle.yr_rules.specs.Rules.{PlainRules};
ghost use Rattle.yr_preserves.specs.ImageReport.{IsImageReport};
ghost use Rattle.yr_preserves.specs.Preserves.{PreservesReports, IsTarget, HaveKindsOf};

/// Images that preserve the reports of the same rules give the same reports, whatever their atoms.
pub fn same_reports()
    ensures { (modules : List ℕ → ModuleValues) (one other : List ℕ) (rules : PlainRules)
        → PreservesReports modules one rules → PreservesReports modules other rules
        → (file : List ℕ) → IsTarget file → (values : List Value) → HaveKindsOf rules.externals values
        → (options : ReportOptions) (target text text' : List ℕ) (count count' : ℕ)
        → IsImageReport (modules file) one file values options target text count
        → IsImageReport (modules file) other file values options target text' count' → text ≡ text' }
{}

/// Bytes have at most one report and one number of hits on a file, whatever the bytes and the values are.
pub fn one_report()
    ensures { (modules : ModuleValues) (bytes file : List ℕ) (values : List Value) (options : ReportOptions)
        (target text text' : List ℕ) (count count' : ℕ)
        → IsImageReport modules bytes file values options target text count
        → IsImageReport modules bytes file values options target text' count'
        → (text ≡ text') × (count ≡ count') }
{}
