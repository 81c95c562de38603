//! Laws about the text, each as the contract of a function with an empty body.
ghost use Rattle.std.specs.Prelude.{◌≡◌, ◌++◌, ◌∷◌, [], ℕ, List, Some, false, length, map};
ghost use Rattle.std.specs.List.{AllByRecursion};
ghost use Rattle.kb_metrics.specs.Gauges.{Observed, shown_tenant};
ghost use Rattle.kb_metrics.specs.Lines.{text_of_lines, lines_of, metrics_text, observed_named, said_of_all};
ghost use Rattle.kb_metrics.specs.Markup.{IsNoMarkup, marked};
ghost use Rattle.kb_metrics.specs.Rates.{History};
ghost use Rattle.kb_metrics.specs.Rows.{Tenant};
ghost use Rattle.kb_metrics.specs.Status.{rows_text};
ghost use Rattle.kb_metrics.specs.Text.{escaped, value_read};
ghost use Rattle.kb_metrics.specs.declared.server.ProcessGauges.{ProcessGauges};
ghost use Rattle.kb_metrics.specs.declared.server.ServerGauges.{ServerGauges};

/// A label's value is read back as it was up to the quote that ends it, whatever bytes it has, and whatever stands behind it. So no
/// value ends its label early, or a line.
#[tactic(auto, using(crate::proofs::Reading::read_back))]
pub fn label_values_are_read_back()
    ensures { (value text : List ℕ) → value_read false (escaped value ++ 34 ∷ text) ≡ Some (value, text) }
{}

/// Where a name stands on a page, no byte of it begins or ends a tag, or a value in quotes: there is no `<`, `>`, `"` or `'`.
#[tactic(auto, using(crate::proofs::Plain::marked_plain))]
pub fn names_begin_no_tag()
    ensures { (name : List ℕ) → AllByRecursion IsNoMarkup (marked name) }
{}

/// What a page of metrics says of a tenant is a function of what is observed of that tenant alone. The lines with its label are what the
/// families say of it, one after the other, and no other line has that label, whatever names others have. Two pages on which the same is
/// observed of it have the same lines with its label, whatever other tenants there are, and whatever server and process.
pub fn lines_of_a_tenant_are_its_own()
    ensures exact { (name : List ℕ) (os : List Observed) (s : ServerGauges) (p : ProcessGauges)
        → text_of_lines (lines_of name (metrics_text os s p)) ≡ said_of_all (map shown_tenant (observed_named name os)) }
    ensures alike { (name : List ℕ) (os others : List Observed) (s more : ServerGauges) (p q : ProcessGauges)
        → observed_named name os ≡ observed_named name others → lines_of name (metrics_text os s p)
        ≡ lines_of name (metrics_text others more q) }
{}

/// Each row of the status page is of one tenant and of its rates: it is the one row of a page on which that tenant stands alone. The rows
/// of those before it and behind it are those of pages of these.
#[tactic(auto, using(crate::proofs::StatusRows::row_between))]
pub fn rows_of_a_tenant_are_its_own()
    ensures { (before behind : List Tenant) (befores behinds : List History) (t : Tenant) (h : History) → length before ≡ length befores
        → rows_text (before ++ t ∷ behind) (befores ++ h ∷ behinds)
        ≡ rows_text before befores ++ rows_text (t ∷ []) (h ∷ []) ++ rows_text behind behinds }
{}
