//! A law over the definitions, on a function with an empty body.
ghost use Rattle.mp_event_run.specs.Prompt.{PromptTextLaw};

/// Where the delay is 0, the text of a run by events is that of the run over its arrivals, in whatever order
/// junctions hear and decide.
pub fn prompt_text_law()
    ensures { PromptTextLaw }
{}
