ghost use Rattle.run_laws.specs.Laws.{TriesThoseOpen, RegistersOnLastTried, NoServiceIfOrderEmpty, RunsTry, RunsKeepOff, TrailIsFixed};

/// What a run tries, what it never tries, when it registers, and when it ends without service.
pub fn run_laws()
    ensures tries_those_open { TriesThoseOpen }
    ensures registers_on_last_tried { RegistersOnLastTried }
    ensures no_service_if_order_empty { NoServiceIfOrderEmpty }
    ensures tries_open_rows_in_order { RunsTry }
    ensures never_tries_forbidden { RunsKeepOff }
    ensures trail_is_fixed { TrailIsFixed }
{}
