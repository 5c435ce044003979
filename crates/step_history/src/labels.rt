ghost use Rattle.std.specs.Prelude.{◌≡◌, ℕ, List};
ghost use Rattle.step_history.specs.History.{Name, of};
ghost use Rattle.step_history.specs.declared.item.Item.{Item};
ghost use Rattle.step_history.specs.Labels.{Labelled, labelled_of, items_of, IsLabelling};

/// Where each hand's steps have labels, a history of all hands takes them: each hand's labels in their order, and as often as
/// they are given. Labels are numbers here; the lemma is for labels of any kind.
pub fn histories_take_labels()
    ensures { (log : List Item) (items : List (Labelled ℕ)) → ((name : Name) → of name log ≡ items_of (labelled_of name items)) → IsLabelling log items }
{}
