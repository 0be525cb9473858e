//! What the readers give, in the words of the grammar: a text spells one reading at most, and the reading is given
//! exactly where it is spelled.
ghost use Rattle.std.specs.Prelude.{◌≡◌, ◌≤◌, ◌↔◌, ℕ, List, Some, None};
ghost use Rattle.fx_css_types.specs.declared.selectors.Selector.{Selector as Chain};
ghost use Rattle.fx_css_types.specs.declared.declarations.Declaration.{Declaration as Entry};
ghost use Rattle.fx_css_parts.specs.declared.Selectors.{Selectors as ReadChains};
ghost use Rattle.fx_css_parts.specs.declared.ReadDeclaration.{ReadDeclaration as ReadEntry};
ghost use Rattle.fx_css_parts.specs.Selecting.{IsSelectors};
ghost use Rattle.fx_css_parts.specs.Declaring.{IsDeclaration};
ghost use Rattle.fx_css_parts.specs.Limits.{past_in_selectors, past_in_declaration};
ghost use Rattle.fx_css_parts.specs.Parts.{selectors_at, declaration_at};
ghost use Rattle.fx_css_types.specs.Limits.{AreFew, layer_count};

/// Selectors are read exactly where a text spells them, and it spells one list of them at most.
pub fn one_selectors()
    ensures found { (text : List ℕ) (chains : List Chain) → IsSelectors text chains
        → selectors_at text ≡ Some (record { selectors = chains; past = past_in_selectors text }) }
    ensures spelled { (text : List ℕ) (r : ReadChains) → selectors_at text ≡ Some r → IsSelectors text r.selectors }
    ensures one { (text : List ℕ) (a b : List Chain) → IsSelectors text a → IsSelectors text b → a ≡ b }
{}

/// A declaration is read exactly where a text spells it, and it spells one at most.
pub fn one_declaration()
    ensures found { (text : List ℕ) (d : Entry) → IsDeclaration text d
        → declaration_at text ≡ Some (record { declaration = d; past = past_in_declaration text }) }
    ensures spelled { (text : List ℕ) (r : ReadEntry) → declaration_at text ≡ Some r
        → IsDeclaration text r.declaration }
    ensures one { (text : List ℕ) (a b : Entry) → IsDeclaration text a → IsDeclaration text b → a ≡ b }
{}

/// A reading tells of nothing past a limit just where it has at most 64 selectors, of at most 16 compounds each, and at
/// most eight layers.
pub fn past_limits()
    ensures selectors { (text : List ℕ) (r : ReadChains) → selectors_at text ≡ Some r
        → ((r.past ≡ None) ↔ AreFew r.selectors) }
    ensures layers { (text : List ℕ) (r : ReadEntry) → declaration_at text ≡ Some r
        → ((r.past ≡ None) ↔ (layer_count r.declaration.value ≤ 8)) }
{}
