//! The rules of a list of sheets by what a node must have to be matched (an id, a class, a type).
//! Styling asks it for the rules that match a node.
ghost use Rattle.std.specs.Prelude.{◌≡◌, ◌++◌, ◌∷◌, ◌<◌, ℕ, List, length, map, OnOk, IfOk, [], false};
ghost use Rattle.std.specs.List.{filter_map, flat_map};
ghost use Rattle.fx_kinds.specs.declared.facts.StyleFacts.{StyleFacts as StyleFactsValue};
ghost use Rattle.fx_css_types.specs.declared.sheets.SheetAt.{SheetAt as SheetValue};
ghost use Rattle.fx_select.specs.Alike.{IsUnasked};
ghost use Rattle.fx_select.specs.Chains.{ParentsStandBefore, chain};
ghost use Rattle.fx_select.specs.Hits.{IsRight, hit_of, hits_of};
ghost use Rattle.fx_select.specs.Keys.{ByClass, Key, InRest, key_of, key_of_compound};
ghost use Rattle.fx_css_types.specs.Limits.{AreShort};
ghost use Rattle.fx_select.specs.Strongest.{matched_of};
ghost use Rattle.fx_select.specs.AllMatching.{matching_of};
ghost use Rattle.fx_select.specs.Listing.{IsBare, IsListing, Listing, listed, selector_entries, sheet_entries, under_key, with_added};

use crate::hits::{Seen, push_hits, push_own_hits};
use crate::lists::{NamedLists, SelectorAt};
use crate::matching::node_at;
use crate::strongest::merge_hits;
use fx_base::Text;
use fx_css_types::{Candidate, Compound, Rule, Selector, SheetAt};
use fx_kinds::{StyleFacts, name_of};
use std::alloc::{AllocError, Global};
use std::marker::Model;

/// As many hits as most nodes have take memory once.
const FEW_HITS: usize = 16;

/// The selectors of a list of sheets, each listed once: under the first id of its last compound, else under its first
/// class, else under its type, else in the rest. A rule without selector is listed nowhere: it matches the node that
/// names its sheet as its inline sheet, and is found there.
#[derive(Drop)]
pub struct RuleIndex {
    ids: NamedLists,
    classes: NamedLists,
    kinds: NamedLists,
    rest: Vec<SelectorAt>,
}

impl Model for RuleIndex {
    ghost use Rattle.fx_select.specs.Listing.{Listing};

    ghost Value = { Listing };

    ghost view = { λ i. record { ids = i.ids; classes = i.classes; kinds = i.kinds; rest = i.rest.items } };
}

/// Over the sheets that an index was built of, the rules that it gives are all that match: those of every sheet that
/// the node sees, in their order, each once with the greatest specificity of its selectors that match.
pub fn all_matched()
    ensures { (sheets : List SheetValue) (listing : Listing) (facts : List StyleFactsValue) (at : ℕ)
        → ParentsStandBefore facts → at < length facts → IsListing sheets listing
        → matched_of listing sheets facts at ≡ matching_of sheets facts at }
{}

/// An index stays one of the sheets where some inline style is another: what it lists doesn't depend on sheets of rules
/// without selectors, as `fx_css::read_inline` reads them.
pub fn inline_styles_change_no_index()
    ensures { (before after : List SheetValue) (old new : SheetValue) (listing : Listing) → IsBare old → IsBare new
        → IsListing (before ++ old ∷ after) listing → IsListing (before ++ new ∷ after) listing }
{}

impl RuleIndex {
    /// The rules that match the node at this place, in order of sheet and rule, each once with the greatest specificity
    /// of its selectors that match. `sheets` are those that the index was built of, or differ from them in inline
    /// styles (`inline_styles_change_no_index`). Sheets within their limits are short
    /// (`fx_css_types::sheets_within_limits_are_short`).
    pub fn matched(
        &self,
        alloc: Global,
        sheets: &[SheetAt],
        facts: &[StyleFacts],
        at: usize,
    ) -> Result<Vec<Candidate>, AllocError>
        requires before { ParentsStandBefore facts.now }
        requires there { at < length facts.now }
        requires short { AreShort sheets.now }
        ensures { IfOk result (λ found. found.items ≡ matched_of self.now sheets.now facts.now at) }
    {
        let mut found = Vec::with_capacity(alloc, FEW_HITS)?;
        self.find_matched(alloc, sheets, facts, at, &mut found)?;
        Ok(found)
    }

    /// Puts the same rules in the place of what was found before, whose memory serves again.
    pub fn find_matched(
        &self,
        alloc: Global,
        sheets: &[SheetAt],
        facts: &[StyleFacts],
        at: usize,
        found: &mut Vec<Candidate>,
    ) -> Result<(), AllocError>
        requires before { ParentsStandBefore facts.now }
        requires there { at < length facts.now }
        requires short { AreShort sheets.now }
        ensures { OnOk result (found.new.items ≡ matched_of self.now sheets.now facts.now at) }
    {
        self.find_hits(sheets, facts, at, found)?;
        merge_hits(alloc, found)?;
        Ok(())
    }

    /// Does a selector ask for the id of this node, where it ends?
    pub fn asks_for_id(&self, node: &StyleFacts) -> bool
        ensures unasked { result ≡ false → IsUnasked self.now node.now }
        ensures only { IsUnasked self.now node.now → result ≡ false }
    {
        !self.ids.under(node.id.as_str()).is_empty()
    }

    fn find_hits(
        &self,
        sheets: &[SheetAt],
        facts: &[StyleFacts],
        at: usize,
        hits: &mut Vec<Candidate>,
    ) -> Result<(), AllocError>
        requires before { ParentsStandBefore facts.now }
        requires there { at < length facts.now }
        requires short { AreShort sheets.now }
        ensures { OnOk result (hits.new.items ≡ hits_of self.now sheets.now (chain facts.now at)) }
    {
        let node = node_at(facts, at);
        let mut last = None;
        hits.clear();
        let by_id = self.ids.under(node.id.as_str());
        push_hits(hits, by_id, sheets, facts, at, &mut last)?;
        self.push_class_hits(hits, node.classes.as_slice(), sheets, facts, at, &mut last)?;
        let by_kind = self.kinds.under(name_of(node.class));
        push_hits(hits, by_kind, sheets, facts, at, &mut last)?;
        push_hits(hits, self.rest.as_slice(), sheets, facts, at, &mut last)?;
        push_own_hits(hits, node.inline, sheets)?;
        Ok(())
    }

    fn push_class_hits(
        &self,
        hits: &mut Vec<Candidate>,
        classes: &[Text],
        sheets: &[SheetAt],
        facts: &[StyleFacts],
        at: usize,
        last: &mut Option<Seen>,
    ) -> Result<(), AllocError>
        requires before { ParentsStandBefore facts.now }
        requires there { at < length facts.now }
        requires short { AreShort sheets.now }
        requires last { IsRight (chain facts.now at) last.old }
        ensures hits { OnOk result (hits.new.items ≡ hits.old.items
            ++ filter_map (hit_of sheets.now (chain facts.now at))
            (flat_map (listed self.now) (map ByClass classes.now))) }
        ensures last { IsRight (chain facts.now at) last.new }
    {
        for class in classes {
            let by_class = self.classes.under(class.as_str());
            push_hits(hits, by_class, sheets, facts, at, last)?;
        }
        Ok(())
    }
}

impl RuleIndex {
    /// The index of these sheets.
    pub fn build(alloc: Global, sheets: &[SheetAt]) -> Result<RuleIndex, AllocError>
        ensures { IfOk result (λ index. IsListing sheets.now index) }
    {
        let mut index = RuleIndex::empty(alloc);
        for (place, sheet) in sheets.iter().enumerate() {
            index.list_sheet(alloc, place, sheet.sheet.rules.as_slice())?;
        }
        Ok(index)
    }

    fn empty(alloc: Global) -> RuleIndex
        ensures { (key : Key) → listed result key ≡ [] }
    {
        RuleIndex {
            ids: NamedLists::new(alloc),
            classes: NamedLists::new(alloc),
            kinds: NamedLists::new(alloc),
            rest: Vec::new(alloc),
        }
    }

    fn list_sheet(&mut self, alloc: Global, sheet: usize, rules: &[Rule]) -> Result<(), AllocError>
        ensures { OnOk result ((key : Key) → listed self.new key
            ≡ listed self.old key ++ under_key key (sheet_entries sheet rules.now)) }
    {
        for (place, rule) in rules.iter().enumerate() {
            self.list_selectors(alloc, sheet, place, rule.selectors.as_slice())?;
        }
        Ok(())
    }

    fn list_selectors(
        &mut self,
        alloc: Global,
        sheet: usize,
        rule: usize,
        selectors: &[Selector],
    ) -> Result<(), AllocError>
        ensures { OnOk result ((key : Key) → listed self.new key
            ≡ listed self.old key ++ under_key key (selector_entries sheet rule selectors.now)) }
    {
        for (place, selector) in selectors.iter().enumerate() {
            let at = SelectorAt {
                sheet,
                rule,
                selector: Some(place),
            };
            self.list_selector(alloc, selector, at)?;
        }
        Ok(())
    }

    fn list_selector(
        &mut self,
        alloc: Global,
        selector: &Selector,
        at: SelectorAt,
    ) -> Result<(), AllocError>
        ensures { OnOk result ((key : Key) → listed self.new key
            ≡ with_added (listed self.old) (key_of selector.now) at key) }
    {
        match selector.compounds.as_slice().split_last() {
            Some((last, _)) => self.list_compound(alloc, last, at),
            None => self.list_rest(at),
        }
    }

    fn list_compound(
        &mut self,
        alloc: Global,
        last: &Compound,
        at: SelectorAt,
    ) -> Result<(), AllocError>
        ensures { OnOk result ((key : Key) → listed self.new key
            ≡ with_added (listed self.old) (key_of_compound last.now) at key) }
    {
        if let Some(id) = last.ids.as_slice().first() {
            return self.ids.add(alloc, id.as_str(), at);
        }
        if let Some(class) = last.classes.as_slice().first() {
            return self.classes.add(alloc, class.as_str(), at);
        }
        match &last.kind {
            Some(kind) => self.kinds.add(alloc, kind.as_str(), at),
            None => self.list_rest(at),
        }
    }

    fn list_rest(&mut self, at: SelectorAt) -> Result<(), AllocError>
        ensures { OnOk result ((key : Key) → listed self.new key ≡ with_added (listed self.old) InRest at key) }
    {
        self.rest.push(at)?;
        Ok(())
    }
}
