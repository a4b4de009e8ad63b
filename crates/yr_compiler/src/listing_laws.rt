//! Laws of images whose rows say rules and externals.

ghost use Rattle.std.specs.Prelude.{◌≡◌, ℕ, ◌&&◌, true, List, length, map};
ghost use Rattle.yr_rules.specs.Rules.{PlainExternal, PlainString, PlainRule, PlainRules};
ghost use Rattle.yr_rules.specs.Wellformed.{IsWellformed};
ghost use Rattle.yr_meaning.specs.Listing as plain;
ghost use Rattle.yr_image.specs.Image.{Image, namespace_of};
ghost use Rattle.yr_machine.specs.ImageRun.{value_of};
ghost use Rattle.yr_machine.specs.Listing.{listed_rules};
ghost use Rattle.yr_machine.specs.Names.{At, is_name, rule_name, note_name, IsNewName};
ghost use Rattle.yr_machine.specs.Rows.{is_good_rule, is_good_without_rules, is_good_note, is_good_external, row_passes};
ghost use Rattle.yr_compiler.specs.declared.code_range.CodeRange.{CodeRange};
ghost use Rattle.yr_compiler.specs.Notes.{SayNotes, external_note};
ghost use Rattle.yr_compiler.specs.Rules.{SayRules, SayNames};
ghost use Rattle.yr_compiler.specs.Codes.{FollowCodes};

/// Reports take the same of the image as of the rules, and its externals are theirs.
pub fn same_listings()
    ensures rules { (image : Image) (rules : PlainRules) (codes : List CodeRange) → image.version ≡ 2 → SayNames image rules.strings
        → SayRules image rules.rules codes → listed_rules image ≡ plain.listed_rules rules }
    ensures externals { (image : Image) (externals : List PlainExternal) → SayNotes image (map external_note externals) image.externals
        → map (λ row. record { name = note_name image row; value = value_of image row }) image.externals ≡ externals }
{}

/// Rows of rules, notes and externals pass the check of rows, where the code's ranges follow one another.
pub fn listings_pass()
    ensures rules { (image : Image) (rules : PlainRules) → IsWellformed rules → (codes : List CodeRange) → SayRules image rules.rules codes
        → FollowCodes image codes → length codes ≡ length rules.rules → length image.strings ≡ length rules.strings
        → (k : ℕ) → row_passes image (is_good_rule image k) image.rules k ≡ true }
    ensures without_rules { (image : Image) (rules : PlainRules) → IsWellformed rules → (codes : List CodeRange) → SayRules image rules.rules codes
        → FollowCodes image codes → length codes ≡ length rules.rules → length image.strings ≡ length rules.strings
        → is_good_without_rules image ≡ true }
    ensures notes { (image : Image) (codes : List CodeRange) (rules : List PlainRule) → SayRules image rules codes
        → (k : ℕ) → row_passes image (is_good_note image) image.notes k ≡ true }
    ensures externals { (image : Image) (externals : List PlainExternal) → SayNotes image (map external_note externals) image.externals
        → (k : ℕ) → row_passes image (is_good_external image) image.externals k ≡ true }
{}

/// Their names pass the check of names.
pub fn names_pass()
    ensures rules { (image : Image) → image.version ≡ 2 → (rules : PlainRules) → IsWellformed rules → (codes : List CodeRange)
        → SayRules image rules.rules codes
        → (k : ℕ) → At (λ row. (is_name (rule_name image row) && is_name (namespace_of image row)) ≡ true) image.rules k }
    ensures notes { (image : Image) → image.version ≡ 2 → (rules : PlainRules) → IsWellformed rules → (codes : List CodeRange)
        → SayRules image rules.rules codes → (k : ℕ) → At (λ row. is_name (note_name image row) ≡ true) image.notes k }
    ensures externals { (image : Image) → image.version ≡ 2 → (rules : PlainRules) → IsWellformed rules
        → SayNotes image (map external_note rules.externals) image.externals
        → (k : ℕ) → At (λ row. (is_name (note_name image row) ≡ true) × IsNewName image k row) image.externals k }
{}
