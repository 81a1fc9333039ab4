// The boundary to C: the operations of `exports` under the same names. `include/calgedze.h` says what a caller has to know.

#![tactic(auto)]

ghost use Rattle.std.specs.Prelude.{◌≡◌};
ghost use Rattle.curves.specs.Pairs.{pair_of};
ghost use Rattle.curves.specs.Unlimited.{with_mark};
ghost use Rattle.closure.specs.Closing.{closing};
ghost use Rattle.constraints.specs.Reading.{reading};
ghost use Rattle.report.specs.Report as report;
ghost use Rattle.rendering.specs.Rendering.{rendering};
ghost use Rattle.scripts.specs.Words.{mark_from};
ghost use Rattle.scripts.specs.Scripts.{opened, monitor_opened, generator_opened, judged, judged_counts, sent, sent_choices, looked};
ghost use Rattle.preview.specs.Preview.{previewed, preview_of};
ghost use Rattle.exports.specs.Boundary.{returned, closing_returned, reading_returned, report_returned, report_into, rendered_into};

// `exports::calgedze_close`.
#[unsafe(no_mangle)]
pub extern "C" fn calgedze_close(
    upper: &[u32],
    lower: &[u32],
    unlimited: u32,
    closed_upper: &mut [u32],
    closed_lower: &mut [u32],
) -> u64
    ensures { returned result (pair_of closed_upper.new closed_lower.new)
        ≡ closing_returned (closing (with_mark upper.now lower.now (mark_from unlimited))
        (pair_of closed_upper.old closed_lower.old)) }
{
    exports::calgedze_close(upper, lower, unlimited, closed_upper, closed_lower)
}

// `exports::calgedze_read`.
#[unsafe(no_mangle)]
pub extern "C" fn calgedze_read(text: &[u8], upper: &mut [u32], lower: &mut [u32]) -> u64
    ensures { returned result (pair_of upper.new lower.new)
        ≡ reading_returned (reading text.now (pair_of upper.old lower.old)) }
{
    exports::calgedze_read(text, upper, lower)
}

// `exports::calgedze_report`.
#[unsafe(no_mangle)]
pub extern "C" fn calgedze_report(text: &[u8], output: &mut [u8]) -> usize
    ensures { report_returned result output.new ≡ report_into (report.output text.now) output.old }
{
    exports::calgedze_report(text, output)
}

// `exports::calgedze_render`.
#[unsafe(no_mangle)]
pub extern "C" fn calgedze_render(
    upper: &[u32],
    lower: &[u32],
    unlimited: u32,
    output: &mut [u8],
) -> u64
    ensures { report_returned result output.new
        ≡ rendered_into (rendering (with_mark upper.now lower.now (mark_from unlimited))) output.old }
{
    exports::calgedze_render(upper, lower, unlimited, output)
}

// `exports::calgedze_monitor_open`.
#[unsafe(no_mangle)]
pub extern "C" fn calgedze_monitor_open(
    upper: &[u32],
    lower: &[u32],
    unlimited: u32,
    state: &mut [u32],
) -> u32
    ensures { opened result state.new
        ≡ monitor_opened (with_mark upper.now lower.now (mark_from unlimited)) state.old }
{
    exports::calgedze_monitor_open(upper, lower, unlimited, state)
}

// `exports::calgedze_monitor_run`.
#[unsafe(no_mangle)]
pub extern "C" fn calgedze_monitor_run(
    state: &mut [u32],
    counts: &[u32],
    verdicts: &mut [u32],
    margins: &mut [i64],
) -> u64
    ensures { judged result state.new verdicts.new margins.new
        ≡ judged_counts state.old counts.now verdicts.old margins.old }
{
    exports::calgedze_monitor_run(state, counts, verdicts, margins)
}

// `exports::calgedze_monitor_preview`.
#[unsafe(no_mangle)]
pub extern "C" fn calgedze_monitor_preview(state: &[u32], counts: &[u32], verdict: &mut u32) -> u64
    ensures { previewed result verdict.new
        ≡ preview_of state.now counts.now verdict.old }
{
    exports::calgedze_monitor_preview(state, counts, verdict)
}

// `exports::calgedze_generator_open`.
#[unsafe(no_mangle)]
pub extern "C" fn calgedze_generator_open(
    upper: &[u32],
    lower: &[u32],
    unlimited: u32,
    state: &mut [u32],
) -> u32
    ensures { opened result state.new
        ≡ generator_opened (with_mark upper.now lower.now (mark_from unlimited)) state.old }
{
    exports::calgedze_generator_open(upper, lower, unlimited, state)
}

// `exports::calgedze_generator_run`.
#[unsafe(no_mangle)]
pub extern "C" fn calgedze_generator_run(
    state: &mut [u32],
    choices: &[u32],
    counts: &mut [u32],
) -> u64
    ensures { sent result state.new counts.new
        ≡ sent_choices state.old choices.now counts.old }
{
    exports::calgedze_generator_run(state, choices, counts)
}

// `exports::calgedze_generator_look`.
#[unsafe(no_mangle)]
pub extern "C" fn calgedze_generator_look(state: &[u32]) -> u64
    ensures { result ≡ looked state.now }
{
    exports::calgedze_generator_look(state)
}
