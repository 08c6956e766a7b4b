// What `topology` exports to C.

ghost use Rattle.call_answers.specs.Game.{game_answer};
ghost use Rattle.call_answers.specs.Rest.{rest_answer};
ghost use Rattle.topology.specs.Games.{PlayedOver};
ghost use Rattle.refusals.specs.Answers.{answer_in};
ghost use Rattle.topology.specs.Contract.{RanOver};
ghost use Rattle.ranked_finish.specs.Ends.{ranked_form};
ghost use Rattle.topology.specs.Ranked.{RankedOver};
ghost use Rattle.report_figures.specs.Forms.{report_form};
ghost use Rattle.topology.specs.Reports.{ReportedOver};
ghost use Rattle.topology.specs.Rest.{RestRanOver};
ghost use Rattle.topology.specs.Desks.{desk_of, RanBothOver};
ghost use Rattle.jenwyllt_c.specs.Lending.{lends, leaves};

use areas::lists::PartitionLists;
use call_answers::desk_answers::DesksAnswer;
use call_answers::game_answers::GameAnswer;
use call_answers::rest_answers::RestAnswer;
use call_partition::asked::Asked;
use context::Region;
use desk_checks::own::Desk;
use ranked_finish::RankedAnswer;
use refusals::answers::Answer;
use report_figures::{Report, Reported};

// A pass, the partition by what it keeps, and the game on the kept graph.
// Kept: C lends its lists one by one, here and below. A function that put them into `Asked` and `PartitionLists` would be lent the same nine lists.
#[unsafe(no_mangle)]
pub extern "C" fn jenwyllt_runner_and_guard(
    pass: u64,
    width: u64,
    height: u64,
    cells: &[u8],
    spans: &[u64],
    boundaries: &[u64],
    anchors: &[u64],
    goal: u64,
    labels: &mut [u32],
    masks: &mut [u16],
    queue: &mut [u32],
    tallies: &mut [u32],
    pairs: &mut [u32],
    records: &mut [Region],
    output: &mut [u64],
    verdicts: &mut [u32],
) -> GameAnswer
    ensures { PlayedOver pass
        (lends width height cells.now spans.now boundaries.now anchors.now labels.old masks.old queue.old
        tallies.old pairs.old records.old output.old)
        goal verdicts.old (game_answer result)
        (leaves labels.new masks.new queue.new tallies.new pairs.new records.new output.new)
        verdicts.new }
{
    let asked = Asked {
        width,
        height,
        cells,
        spans,
        boundaries,
        anchors,
    };
    let mut lists = PartitionLists {
        labels,
        masks,
        queue,
        tallies,
        pairs,
    };
    GameAnswer::from(topology::games::topology_runner_and_guard(
        pass, asked, goal, &mut lists, records, output, verdicts,
    ))
}

// The call that runs a pass (SPECIFICATION 3).
#[unsafe(no_mangle)]
pub extern "C" fn jenwyllt_kept_boundaries(
    pass: u64,
    width: u64,
    height: u64,
    cells: &[u8],
    spans: &[u64],
    boundaries: &[u64],
    anchors: &[u64],
    labels: &mut [u32],
    masks: &mut [u16],
    queue: &mut [u32],
    tallies: &mut [u32],
    pairs: &mut [u32],
    records: &mut [Region],
    output: &mut [u64],
) -> Answer
    ensures { RanOver pass
        (lends width height cells.now spans.now boundaries.now anchors.now labels.old masks.old queue.old
        tallies.old pairs.old records.old output.old)
        (answer_in result)
        (leaves labels.new masks.new queue.new tallies.new pairs.new records.new output.new) }
{
    let asked = Asked {
        width,
        height,
        cells,
        spans,
        boundaries,
        anchors,
    };
    let mut lists = PartitionLists {
        labels,
        masks,
        queue,
        tallies,
        pairs,
    };
    let kept = topology::topology_kept_boundaries(pass, asked, &mut lists, records, output);
    Answer::from(kept)
}

// The call of pass 3 with its list. Nothing is written to the lent list before the proposals are counted.
#[unsafe(no_mangle)]
pub extern "C" fn jenwyllt_ranked_junctions(
    width: u64,
    height: u64,
    cells: &[u8],
    spans: &[u64],
    boundaries: &[u64],
    anchors: &[u64],
    labels: &mut [u32],
    masks: &mut [u16],
    queue: &mut [u32],
    tallies: &mut [u32],
    pairs: &mut [u32],
    records: &mut [Region],
    output: &mut [u64],
    ranked: &mut [u32],
) -> RankedAnswer
    ensures { RankedOver
        (lends width height cells.now spans.now boundaries.now anchors.now labels.old masks.old queue.old
        tallies.old pairs.old records.old output.old)
        ranked.old (ranked_form result)
        (leaves labels.new masks.new queue.new tallies.new pairs.new records.new output.new)
        ranked.new }
{
    let asked = Asked {
        width,
        height,
        cells,
        spans,
        boundaries,
        anchors,
    };
    let mut lists = PartitionLists {
        labels,
        masks,
        queue,
        tallies,
        pairs,
    };
    RankedAnswer::from(topology::ranked::topology_ranked_junctions(
        asked, &mut lists, records, output, ranked,
    ))
}

// Makes the call and adds what it answered. A run beyond the last is refused before anything else, and every list is then as it was.
#[unsafe(no_mangle)]
pub extern "C" fn jenwyllt_report_run(
    report: Report,
    pass: u64,
    width: u64,
    height: u64,
    cells: &[u8],
    spans: &[u64],
    boundaries: &[u64],
    anchors: &[u64],
    labels: &mut [u32],
    masks: &mut [u16],
    queue: &mut [u32],
    tallies: &mut [u32],
    pairs: &mut [u32],
    records: &mut [Region],
    output: &mut [u64],
) -> Reported
    ensures { ReportedOver (report_form report) pass
        (lends width height cells.now spans.now boundaries.now anchors.now labels.old masks.old queue.old
        tallies.old pairs.old records.old output.old)
        result
        (leaves labels.new masks.new queue.new tallies.new pairs.new records.new output.new) }
{
    let asked = Asked {
        width,
        height,
        cells,
        spans,
        boundaries,
        anchors,
    };
    let mut lists = PartitionLists {
        labels,
        masks,
        queue,
        tallies,
        pairs,
    };
    topology::runs::topology_report_run(report, pass, asked, &mut lists, records, output)
}

// The call that runs the passes to rest.
#[unsafe(no_mangle)]
pub extern "C" fn jenwyllt_run_to_rest(
    width: u64,
    height: u64,
    cells: &[u8],
    spans: &[u64],
    boundaries: &[u64],
    anchors: &[u64],
    labels: &mut [u32],
    masks: &mut [u16],
    queue: &mut [u32],
    tallies: &mut [u32],
    pairs: &mut [u32],
    records: &mut [Region],
    output: &mut [u64],
) -> RestAnswer
    ensures { RestRanOver
        (lends width height cells.now spans.now boundaries.now anchors.now labels.old masks.old queue.old
        tallies.old pairs.old records.old output.old)
        (rest_answer result)
        (leaves labels.new masks.new queue.new tallies.new pairs.new records.new output.new) }
{
    let asked = Asked {
        width,
        height,
        cells,
        spans,
        boundaries,
        anchors,
    };
    let mut lists = PartitionLists {
        labels,
        masks,
        queue,
        tallies,
        pairs,
    };
    RestAnswer::from(topology::to_rest::topology_run_to_rest(asked, &mut lists, records, output))
}

// The call for two desks. The records are filled from the queue before the desks work in it.
#[unsafe(no_mangle)]
pub extern "C" fn jenwyllt_two_desks(
    order: u64,
    width: u64,
    height: u64,
    cells: &[u8],
    spans: &[u64],
    route_pass: u64,
    route_boundaries: &[u64],
    route_anchors: &[u64],
    coaching_pass: u64,
    coaching_boundaries: &[u64],
    coaching_anchors: &[u64],
    labels: &mut [u32],
    masks: &mut [u16],
    queue: &mut [u32],
    tallies: &mut [u32],
    pairs: &mut [u32],
    records: &mut [Region],
    route_output: &mut [u64],
    coaching_output: &mut [u64],
) -> DesksAnswer
    ensures { RanBothOver order
        (record {
          width = width;
          height = height;
          cells = cells.now;
          spans = spans.now;
          labels = labels.old;
          masks = masks.old;
          queue = queue.old;
          tallies = tallies.old;
          pairs = pairs.old;
          records = records.old;
        })
        (desk_of route_pass route_boundaries.now route_anchors.now route_output.old)
        (desk_of coaching_pass coaching_boundaries.now coaching_anchors.now coaching_output.old)
        result
        (record {
          labels = labels.new;
          masks = masks.new;
          queue = queue.new;
          tallies = tallies.new;
          pairs = pairs.new;
          records = records.new;
          route_output_lem = route_output.new;
          coaching_output_lem = coaching_output.new;
        }) }
{
    let route_desk = Desk {
        pass: route_pass,
        boundaries: route_boundaries,
        anchors: route_anchors,
    };
    let coaching_desk = Desk {
        pass: coaching_pass,
        boundaries: coaching_boundaries,
        anchors: coaching_anchors,
    };
    let mut lists = PartitionLists {
        labels,
        masks,
        queue,
        tallies,
        pairs,
    };
    DesksAnswer::from(topology::two_desks::topology_two_desks(
        order,
        width,
        height,
        cells,
        spans,
        route_desk,
        coaching_desk,
        &mut lists,
        records,
        route_output,
        coaching_output,
    ))
}
