//! Laws of images that are built of rules.

ghost use Rattle.std.specs.Prelude.{ℕ, List};
ghost use Rattle.yr_rules.specs.Rules.{PlainRules};
ghost use Rattle.yr_rules.specs.Wellformed.{IsWellformed};
ghost use Rattle.yr_meaning.specs.Scan.{ModuleValues};
ghost use Rattle.yr_image.specs.declared.tables.Tables.{Tables};
ghost use Rattle.yr_image.specs.Image.{shown};
ghost use Rattle.yr_image.specs.Encoding.{encoded};
ghost use Rattle.yr_image.specs.Fits.{Fits};
ghost use Rattle.yr_preserves.specs.ImageReport.{KeepsKinds};
ghost use Rattle.yr_preserves.specs.Shape.{IsCompiled};
ghost use Rattle.yr_compiler.specs.Built.{IsBuilt};
ghost use Rattle.yr_preserves.specs.RuleIds.{HaveIds};
ghost use Rattle.yr_compiler.specs.Finds.{FindsSame};

use yr_machine::laws::some_programs_are_known;

/// The encoding of tables that are built of rules is an image to which the rules may be compiled: it is wellformed and short, has their
/// externals, gives their reports, keeps the least lengths of atoms, and has the shape of a trie.
pub fn built_is_compiled()
    ensures { (tables : Tables) (rules : PlainRules) → IsWellformed rules → HaveIds rules → IsBuilt (shown tables) rules → Fits (shown tables)
        → (modules : List ℕ → ModuleValues) → KeepsKinds modules → IsCompiled modules (encoded (shown tables)) rules }
{
    some_programs_are_known();
}

/// The same tables find what the rules say.
pub fn built_finds_the_same()
    ensures { (tables : Tables) (rules : PlainRules) → IsWellformed rules → HaveIds rules → IsBuilt (shown tables) rules → Fits (shown tables)
        → (modules : List ℕ → ModuleValues) → KeepsKinds modules → FindsSame modules (encoded (shown tables)) rules }
{
    some_programs_are_known();
}
