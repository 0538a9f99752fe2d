//! What filters and limits say of whole traces.

ghost use Rattle.std.specs.Prelude.{◌≡◌, ◌-◌, List, flat_map};
ghost use Rattle.apex_types.specs.declared.event.Event.{Event};
ghost use Rattle.trace_lines.specs.Filters.{chosen_text, text_of_chosen};
ghost use Rattle.trace_lines.specs.Limiting.{count_of, left_after};
ghost use Rattle.trace_lines.specs.declared.filter.Filter.{Filter};
ghost use Rattle.trace_lines.specs.declared.limit.Limit.{Limit};

/// The lines that are added one by one are exactly those of the trace for which the filter holds, in
/// their order.
pub fn lines_are_those_chosen()
    ensures { (f : Filter) (events : List Event)
        → flat_map (chosen_text f) events ≡ text_of_chosen f events }
{}

/// The lines that may still come are those of the limit, less those that count.
pub fn lines_are_counted()
    ensures { (l : Limit) (events : List Event)
        → left_after l events ≡ l.left - count_of l.what events }
{}
