//! What holds of all front pages: a law is the contract of a function that does nothing.

ghost use Rattle.std.specs.Prelude.{◌≡◌, ◌∷◌, [], ℕ, List, unwrap_or};
ghost use Rattle.history_csv.specs.Nodes.{node_text};
ghost use Rattle.history_report.specs.Html.{escaped, texts_in};
ghost use Rattle.ua_space.specs.declared.layout.Layout.{Layout};
ghost use Rattle.ua_space.specs.Space.{value_type_at};
ghost use Rattle.web_page.specs.declared.listing.Listed.{Listed};
ghost use Rattle.web_page.specs.Values.{type_text, cut_text};
ghost use Rattle.web_page.specs.Front.{front_row};

/// Between the tags of a row stand its texts, in their order, and else nothing: so no text of the
/// settings or of a value begins or ends a tag, nor does an address its attribute.
#[tactic(auto, using(crate::proofs::MarkupLemmas::row_texts))]
pub fn a_front_rows_texts_are_its_cells()
    ensures { (space : Layout) → (one : Listed) → (value status time age : List ℕ)
        → texts_in (front_row space one value status time age)
        ≡ [] ∷ escaped (unwrap_or one.folder []) ∷ [] ∷ escaped one.name
        ∷ [] ∷ [] ∷ escaped (node_text one.node) ∷ []
        ∷ [] ∷ escaped (type_text (value_type_at space one.node))
        ∷ [] ∷ escaped (cut_text value) ∷ [] ∷ escaped status ∷ [] ∷ escaped time
        ∷ [] ∷ escaped age ∷ [] ∷ [] }
{}
