//! Small rule files, which the checks are tried on.

ghost use Rattle.std.specs.Prelude.{◌≡◌, ◌≤◌, Contains, ℕ, slice_get, Bool, List, Ok, Err, [], ◌∷◌, pos, codes, true, Some, None};
ghost use Rattle.yr_base.specs.declared.value.Kind.TheVariants as kind;
ghost use Rattle.yr_syntax.specs.declared.operator.Infix.TheVariants as op;
ghost use Rattle.yr_rules.specs.declared.members.StringRef.TheVariants as ref;
ghost use Rattle.yr_rules.specs.NodeTree as node;
ghost use Rattle.yr_rules.specs.Fits.{Rows, Fits};
ghost use Rattle.yr_rules.specs.Height as node_height;
ghost use Rattle.yr_rules.specs.Ids.{HasIds};
ghost use Rattle.yr_rules.specs.NodeTree.{NodeTree};
ghost use Rattle.yr_rules.specs.Rules.{PlainRules};
ghost use Rattle.yr_rules.specs.Weight.{weight_limit, weight_of};
ghost use Rattle.yr_syntax.specs.Condition.{Condition};
ghost use Rattle.yr_syntax.specs.Forms.{Each, HasForms};
ghost use Rattle.yr_syntax.specs.Height as tree_height;
ghost use Rattle.yr_checks.specs.Fitting.{LiesIn, IsWithin, IsSoundRule};
ghost use Rattle.yr_conditions.specs.Meanings.{Around};
ghost use Rattle.yr_conditions.specs.Nodes.{node_of};
ghost use Rattle.yr_checks.specs.Resolving.{row_ids};
ghost use Rattle.yr_conditions.specs.Uses.{uses_of};
ghost use Rattle.yr_values.specs.Names.{NamedModule};
ghost use Rattle.yr_checks.specs.Given.{Given};
ghost use Rattle.yr_checks.specs.Checked.{checked_rules};
ghost use Rattle.yr_conditions.specs.Readers.{Readers, Read};
ghost use Rattle.yr_checks.specs.Refusals.{PlainRefusal, resolved, IsRefused, IsPassed};
ghost use Rattle.yr_checks.specs.Sources.{Item, PlacedRule, UnitTree, items_of, number_of, rules_in};
ghost use Rattle.yr_checks.specs.Examples.{any_of_p, conditions, found, hex_string, import_of, nameless_count, nested, one_argument, one_unit, over_sections, own_bound, refused, rule_of, rule_with, text_string, unit_with, word, yes};
ghost use Rattle.yr_syntax.specs.Condition as tree;
ghost use Rattle.std.specs.Prelude.{◌+◌, ◌<◌, ◌↔◌, length};
ghost use Rattle.yr_syntax.specs.Declaration as declaration;
ghost use Rattle.yr_rules.specs.Weight.{total, external_weight};
ghost use Rattle.yr_checks.specs.declared.check.Check.TheVariants as check;
ghost use Rattle.yr_checks.specs.declared.refusal.Code.TheVariants as code;
ghost use Rattle.yr_checks.specs.Checks.{rule_finding};
ghost use Rattle.yr_checks.specs.Given.{finding};
ghost use Rattle.yr_conditions.specs.Readers.{RegexRefusal, Range, Mixed};
ghost use Rattle.yr_checks.specs.Refusals.{first_fault};
ghost use Rattle.yr_checks.specs.Sources.{first_string_of};
ghost use Rattle.yr_checks.specs.Examples.{bad_readers, string_of};
ghost use Rattle.yr_checks.specs.SmallRules.{sized, large_regexes, found_by, plain, rule_x, tagged, text, modified, hex, regex, any_of_them, any_of, any_like, any_repeated, matching, loops, over_ones, mixed, heavy, own_variable, conditions_with};

/// Names of rules and modules: a namespace's rules are its own, an import past the last rule is looked at too.
#[tactic(auto, unfolding(yr_name_tables::specs::Names::means_some, yr_name_tables::specs::Names::is_meant, yr_name_tables::specs::Names::has_front, crate::specs::Checks::unused_string))]
pub fn rule_names()
    ensures unknown_word { refused (one_unit (rule_of (word (codes "nope") tree.no_step))) ≡ Some (record { check = 12; rule = Some 0; named = codes "nope" }) }
    ensures twice { refused (unit_with (codes "d") (rule_of yes) ∷ unit_with (codes "d") (rule_of yes) ∷ []) ≡ Some (record { check = 2; rule = Some 1; named = [] }) }
    ensures other_namespace { refused (unit_with (codes "a") (rule_of yes) ∷ unit_with (codes "b") (rule_of yes) ∷ []) ≡ None }
    ensures unknown_module { refused (one_unit (import_of (codes "math") ∷ [])) ≡ Some (record { check = 1; rule = None; named = codes "math" }) }
    ensures wildcard { refused (one_unit (rule_with (codes "p1") [] yes ∷ rule_with (codes "q") [] any_of_p ∷ [])) ≡ None }
    ensures claimed { refused (one_unit (rule_with (codes "p1") [] yes ∷ rule_with (codes "q") [] any_of_p ∷ rule_with (codes "p2") [] yes ∷ [])) ≡ Some (record { check = 3; rule = Some 2; named = [] }) }
    ensures external { refused (one_unit (rule_with (codes "n") [] yes ∷ [])) ≡ Some (record { check = 2; rule = Some 0; named = [] }) }
{}

/// Paths of modules, variables of loops and strings.
#[tactic(auto, unfolding(yr_name_tables::specs::Names::means_some, yr_name_tables::specs::Names::is_meant, yr_name_tables::specs::Names::has_front, crate::specs::Checks::unused_string))]
pub fn words_and_strings()
    ensures one_argument { refused (one_unit (import_of (codes "hash") ∷ rule_of one_argument)) ≡ Some (record { check = 13; rule = Some 0; named = [] }) }
    ensures not_imported { refused (one_unit (rule_of one_argument)) ≡ Some (record { check = 12; rule = Some 0; named = codes "hash" }) }
    ensures sections { refused (one_unit (import_of (codes "elf") ∷ rule_of (over_sections (codes "name")))) ≡ None }
    ensures lacks { refused (one_unit (import_of (codes "elf") ∷ rule_of (over_sections (codes "lacks")))) ≡ Some (record { check = 12; rule = Some 0; named = codes "lacks" }) }
    ensures own_bound { refused (one_unit (rule_of own_bound)) ≡ Some (record { check = 12; rule = Some 0; named = codes "i" }) }
    ensures nameless { refused (one_unit (rule_with (codes "x") text_string nameless_count ∷ [])) ≡ Some (record { check = 11; rule = Some 0; named = codes "#" }) }
    ensures unused { refused (one_unit (rule_with (codes "x") text_string yes ∷ [])) ≡ Some (record { check = 14; rule = Some 0; named = codes "$a" }) }
    ensures jump { refused (one_unit (rule_with (codes "x") hex_string found ∷ [])) ≡ Some (record { check = 8; rule = Some 0; named = codes "$a" }) }
    ensures text { refused (one_unit (rule_with (codes "x") text_string found ∷ [])) ≡ None }
{}

/// Conditions with numbers for names.
#[tactic(auto, unfolding(yr_name_tables::specs::Names::means_some, yr_name_tables::specs::Names::is_meant, yr_name_tables::specs::Names::has_front, crate::specs::Checks::unused_string))]
pub fn checked_conditions()
    ensures sections { conditions (one_unit (import_of (codes "elf") ∷ rule_of (over_sections (codes "name"))))
        ≡ node.ForIn node.Any (codes "s") (node.OverEntries 4)
        (node.Chain (node.FieldAt 16 kind.Text (node.Var 0)) (node.link op.Equal (node.Text (codes ".text")) node.no_link)) ∷ [] }
    ensures nested { conditions (one_unit (rule_of nested))
        ≡ node.ForIn node.Any (codes "i") (node.OverRange (node.Number (pos 1)) (node.Number (pos 2)))
        (node.ForOf node.Any (node.Strings []) (node.Chain (node.Offset (ref.Current 1)) (node.link op.Equal (node.Var 0) node.no_link))) ∷ [] }
    ensures rules { conditions (one_unit (rule_with (codes "p1") [] yes ∷ rule_with (codes "q") [] any_of_p ∷ []))
        ≡ node.Flag true ∷ node.Of node.Any (node.Rules (0 ∷ [])) node.Anywhere ∷ [] }
    ensures once { conditions (one_unit (rule_with (codes "x") text_string found ∷ rule_with (codes "y") (text (codes "b") ∷ text (codes "a") ∷ []) any_repeated ∷ []))
        ≡ node.Found (ref.Known 0) node.Anywhere ∷ node.Of node.Any (node.Strings (1 ∷ 2 ∷ [])) node.Anywhere ∷ [] }
    ensures variable_first { conditions_with (codes "i" ∷ []) (one_unit (rule_of own_variable))
        ≡ node.ForIn node.Any (codes "i") (node.OverRange (node.External 0) (node.Number (pos 1))) (node.Chain (node.Var 0) (node.link op.Equal (node.Number (pos 1)) node.no_link)) ∷ [] }
    ensures module_first { conditions_with (codes "elf" ∷ []) (one_unit (import_of (codes "elf") ∷ rule_of (word (codes "elf") (tree.name_step (codes "ET_EXEC") tree.no_step)))) ≡ node.Number (pos 2) ∷ [] }
    ensures external_then { conditions_with (codes "elf" ∷ []) (one_unit (rule_of (word (codes "elf") tree.no_step))) ≡ node.External 0 ∷ [] }
{}

/// Names, tags, texts and modifiers of one rule that a check refuses.
#[tactic(auto, unfolding(yr_name_tables::specs::Names::means_some, yr_name_tables::specs::Names::is_meant, yr_name_tables::specs::Names::has_front, crate::specs::Checks::unused_string))]
pub fn refused_declarations()
    ensures unknown_module { found_by plain (one_unit (import_of (codes "math") ∷ rule_of yes)) ≡ Some (finding code.UnknownModule (codes "math")) }
    ensures duplicate_rule { found_by plain (one_unit (rule_with (codes "x") [] yes ∷ rule_with (codes "x") [] yes ∷ [])) ≡ Some (finding code.DuplicateRule []) }
    ensures wildcard_rule { found_by plain (one_unit (rule_with (codes "p1") [] yes ∷ rule_with (codes "q") [] any_of_p ∷ rule_with (codes "p") [] yes ∷ [])) ≡ Some (finding code.WildcardRule []) }
    ensures duplicate_tag { found_by plain (tagged (codes "a" ∷ codes "b" ∷ codes "b" ∷ codes "a" ∷ [])) ≡ Some (finding code.DuplicateTag (codes "a")) }
    ensures duplicate_string { found_by plain (rule_x (text (codes "a") ∷ text (codes "b") ∷ text (codes "b") ∷ []) any_of_them) ≡ Some (finding code.DuplicateString (codes "$b")) }
    ensures nameless_strings { found_by plain (rule_x (text [] ∷ text [] ∷ []) any_of_them) ≡ None }
    ensures empty_string { found_by plain (rule_x (string_of (codes "a") (declaration.Text []) ∷ []) any_of_them) ≡ Some (finding code.EmptyString (codes "$a")) }
    ensures bad_modifiers { found_by plain (rule_x (modified (codes "a") (declaration.NoCase ∷ declaration.NoCase ∷ []) ∷ []) any_of_them) ≡ Some (finding code.BadModifiers (codes "$a")) }
{}

/// Hex strings and expressions that a check refuses: strings come before the condition, and a size of 65,535 is allowed.
#[tactic(auto, unfolding(yr_name_tables::specs::Names::means_some, yr_name_tables::specs::Names::is_meant, yr_name_tables::specs::Names::has_front, crate::specs::Checks::unused_string))]
pub fn refused_patterns()
    ensures hex_syntax { found_by (large_regexes 1) (rule_x (hex (codes "a") ∷ []) any_of_them) ≡ Some (finding code.HexSyntax (codes "$a")) }
    ensures hex_jump { found_by bad_readers (rule_x (hex (codes "a") ∷ []) any_of_them) ≡ Some (record { code = code.HexJump; named = codes "$a"; place = Some 4 }) }
    ensures regex_syntax { found_by plain (rule_x (regex (codes "a") ∷ []) any_of_them) ≡ Some (finding code.RegexSyntax (codes "$a")) }
    ensures regex_range { found_by (sized 1 (Range 3)) (rule_x (regex (codes "a") ∷ []) matching) ≡ Some (record { code = code.RegexRange; named = codes "$a"; place = Some 3 }) }
    ensures mixed_greed { found_by (sized 1 Mixed) (rule_x (text (codes "a") ∷ []) matching) ≡ Some (finding code.MixedGreed (codes "matches")) }
    ensures large { found_by (sized 65536 RegexRefusal.NoReading) (rule_x (hex (codes "a") ∷ []) any_of_them) ≡ Some (finding code.PatternTooLarge (codes "$a")) }
    ensures largest { found_by (sized 65535 RegexRefusal.NoReading) (rule_x (hex (codes "a") ∷ []) any_of_them) ≡ None }
    ensures large_matches { found_by (large_regexes 65536) (rule_x [] matching) ≡ Some (finding code.PatternTooLarge (codes "matches")) }
    ensures largest_matches { found_by (large_regexes 65535) (rule_x [] matching) ≡ None }
{}

/// Names in a condition that mean nothing, and strings that nothing names.
#[tactic(auto, unfolding(yr_name_tables::specs::Names::means_some, yr_name_tables::specs::Names::is_meant, yr_name_tables::specs::Names::has_front, crate::specs::Checks::unused_string))]
pub fn refused_names()
    ensures no_such_string { found_by plain (rule_x (text (codes "a") ∷ []) (any_like (codes "b"))) ≡ Some (finding code.UnknownString (codes "$b*")) }
    ensures no_nameless_string { found_by plain (rule_x (text (codes "a") ∷ []) (any_of [])) ≡ Some (finding code.UnknownString (codes "$")) }
    ensures no_string_at_all { found_by plain (rule_x [] (any_like [])) ≡ Some (finding code.UnknownString (codes "$*")) }
    ensures counted { found_by plain (rule_x (text (codes "a") ∷ []) (tree.Count (codes "b"))) ≡ Some (finding code.UnknownString (codes "#b")) }
    ensures them { found_by plain (rule_x [] any_of_them) ≡ None }
    ensures own_name { found_by plain (rule_x [] (word (codes "x") tree.no_step)) ≡ Some (finding code.UnknownName (codes "x")) }
    ensures no_such_rule { found_by plain (rule_x [] any_of_p) ≡ Some (finding code.UnknownName (codes "p")) }
    ensures wrong_type { found_by plain (rule_x [] mixed) ≡ Some (finding code.WrongType []) }
    ensures unused_nameless { found_by plain (rule_x (text [] ∷ []) yes) ≡ Some (finding code.UnusedString (codes "$")) }
    ensures unused_on_purpose { found_by plain (rule_x (text (codes "_a") ∷ []) yes) ≡ None }
{}

/// Limits, each with the most that it allows.
#[tactic(auto, unfolding(yr_name_tables::specs::Names::means_some, yr_name_tables::specs::Names::is_meant, yr_name_tables::specs::Names::has_front, crate::specs::Checks::unused_string))]
pub fn limits()
    ensures four_loops { found_by plain (rule_x [] (loops 4)) ≡ None }
    ensures five_loops { found_by plain (rule_x [] (loops 5)) ≡ Some (finding code.LoopDepth []) }
    ensures most_items { found_by plain (rule_x [] (over_ones 128)) ≡ None }
    ensures too_many_items { found_by plain (rule_x [] (over_ones 129)) ≡ Some (finding code.ListTooLong []) }
    ensures heaviest { found_by (sized 65532 RegexRefusal.NoReading) (heavy (codes "abcdefghijklmnopqrstuvwxyzabcdef")) ≡ None }
    ensures too_heavy { found_by (sized 65532 RegexRefusal.NoReading) (heavy (codes "abcdefghijklmnopqrstuvwxyzabcdefg")) ≡ Some (finding code.TooHeavy []) }
    ensures too_many { (given : Given) (p : PlacedRule) → (rule_finding given p check.Counts ≡ Some (finding code.TooMany []))
        ↔ (((number_of p + 1 ≤ 65535) × (first_string_of p + length p.rule.strings ≤ 65535)) → ⊥) }
{}

/// Namespaces: rules, wildcards and imports are those of their own, also across rule files; what comes first in the source is refused first.
#[tactic(auto, unfolding(yr_name_tables::specs::Names::means_some, yr_name_tables::specs::Names::is_meant, yr_name_tables::specs::Names::has_front, crate::specs::Checks::unused_string))]
pub fn namespaces()
    ensures own_wildcard { found_by plain (unit_with (codes "a") (rule_with (codes "p1") [] yes ∷ rule_with (codes "q") [] any_of_p ∷ []) ∷ unit_with (codes "a") (rule_with (codes "p2") [] yes ∷ []) ∷ []) ≡ Some (finding code.WildcardRule []) }
    ensures other_wildcard { found_by plain (unit_with (codes "a") (rule_with (codes "p1") [] yes ∷ rule_with (codes "q") [] any_of_p ∷ []) ∷ unit_with (codes "b") (rule_with (codes "p2") [] yes ∷ []) ∷ []) ≡ None }
    ensures own_rule { found_by plain (unit_with (codes "a") (rule_with (codes "r") [] yes ∷ []) ∷ unit_with (codes "a") (rule_of (word (codes "r") tree.no_step)) ∷ []) ≡ None }
    ensures other_rule { found_by plain (unit_with (codes "a") (rule_with (codes "r") [] yes ∷ []) ∷ unit_with (codes "b") (rule_of (word (codes "r") tree.no_step)) ∷ []) ≡ Some (finding code.UnknownName (codes "r")) }
    ensures other_set { found_by plain (unit_with (codes "a") (rule_with (codes "p1") [] yes ∷ []) ∷ unit_with (codes "b") (rule_of any_of_p) ∷ []) ≡ Some (finding code.UnknownName (codes "p")) }
    ensures own_import { found_by plain (unit_with (codes "a") (import_of (codes "elf") ∷ []) ∷ unit_with (codes "a") (rule_of (over_sections (codes "name"))) ∷ []) ≡ None }
    ensures other_import { found_by plain (unit_with (codes "a") (import_of (codes "elf") ∷ []) ∷ unit_with (codes "b") (rule_of (over_sections (codes "name"))) ∷ []) ≡ Some (finding code.UnknownName (codes "elf")) }
    ensures import_behind { found_by plain (one_unit (rule_with (codes "x") [] (over_sections (codes "name")) ∷ import_of (codes "elf") ∷ [])) ≡ Some (finding code.UnknownName (codes "elf")) }
    ensures rule_before_import { found_by plain (one_unit (rule_with (codes "x") [] mixed ∷ import_of (codes "math") ∷ [])) ≡ Some (finding code.WrongType []) }
    ensures rule_before_check { found_by plain (one_unit (rule_with (codes "x") [] mixed ∷ rule_with (codes "x") [] yes ∷ [])) ≡ Some (finding code.WrongType []) }
{}

/// What the checks give is the refusal with the first rule and then the first check; where there is none, no check fails.
pub fn least_refusal()
    ensures refused { (given : Given) (units : List UnitTree) (r : PlainRefusal) → resolved given units ≡ Err r → IsRefused given units r }
    ensures passed { (given : Given) (units : List UnitTree) (rules : PlainRules) → resolved given units ≡ Ok rules
        → IsPassed given units × (rules ≡ checked_rules given (items_of units)) }
{}

/// Hex strings and expressions can be read by their definitions, and in one way only.
pub fn readers()
    ensures some { (readers : Readers) × Read readers }
    ensures one { (a b : Readers) → Read a → Read b
        → ((t : List ℕ) → a.hex t ≡ b.hex t) × ((t : List ℕ) (nocase dot_all : Bool) → a.regex t nocase dot_all ≡ b.regex t nocase dot_all) }
{}

/// The checked condition that a condition stands for fits what its names are looked up in, is no higher, and has the ids of the modules' rows.
pub fn conditions_fit()
    ensures fits { (readers : Readers) (around : Around) (rows : Rows) (c : Condition) (n : NodeTree) → LiesIn rows around → node_of readers around c [] ≡ Some n
        → Each (IsWithin readers) (uses_of around c []) → Fits rows n [] }
    ensures low { (readers : Readers) (around : Around) (c : Condition) (n : NodeTree) → node_of readers around c [] ≡ Some n → node_height.height n ≤ tree_height.height c }
    ensures ids { (readers : Readers) (around : Around) (modules : List NamedModule) (c : Condition) (n : NodeTree)
        → ((m : NamedModule) → Contains around.modules m → Contains modules m) → HasForms c → node_of readers around c [] ≡ Some n → HasIds (row_ids modules) n }
{}

/// Where no check fails, each rule's checked condition is there, has a kind, fits the rules and is low enough, and the rules are light enough.
pub fn passing_rules()
    ensures sound { (given : Given) (units : List UnitTree) → IsPassed given units → (i : ℕ) (p : PlacedRule) → slice_get (rules_in (items_of units)) i ≡ Some p
        → IsSoundRule given (checked_rules given (items_of units)) p }
    ensures numbered { (items : List Item) (i : ℕ) (p : PlacedRule) → slice_get (rules_in items) i ≡ Some p → number_of p ≡ i }
    ensures light { (given : Given) (units : List UnitTree) → IsPassed given units → weight_of (checked_rules given (items_of units)) ≤ weight_limit }
{}
