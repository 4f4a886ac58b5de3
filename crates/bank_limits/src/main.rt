// Banks of tables and of diagrams, and pairs of banks, at their limits: what is accepted, and by which number the rest is refused.
#![tactic(auto)]

use banks::bank::Bank;
use banks::pair::Pair;
use diagrams::bank::DiagramBank;
use diagrams::diagram::{Arc, Diagram, Span};
use differences::bank::DifferenceBank;
use differences::difference::{Difference, Relation};
use rows::mask::only;
use rows::refusal::Numbered;
use tables::bank::TableBank;
use tables::table::Table;
use texts::{Answer, NumberOr, Sets};

// A table on these rows, of so many lines from a start byte on.
fn table<'a>(rows: &'a [usize], start: usize, lines: usize) -> Table<'a> {
    Table { rows, start, lines }
}

// A diagram on these rows, by its parts of the pools.
fn diagram<'a>(rows: &'a [usize], nodes: Span, arcs: Span) -> Diagram<'a> {
    Diagram { rows, nodes, arcs }
}

// Prints an answer, and what the bank that is made has.
fn print_made<B: Bank, E: Numbered>(
    rt: &HostRuntime,
    label: &str,
    answer: &Result<(), E>,
    bank: &B,
) -> anyhow::Result<()> {
    println!(rt;
        "{label}: {}; made with width {} and {} rules",
        Answer(answer),
        bank.width(),
        bank.rule_count()
    )?;
    Ok(())
}

// Prints what the check of a bank of tables answers, and what the bank that is made has.
fn print_tables<'a>(
    rt: &HostRuntime,
    label: &str,
    width: usize,
    tables: &'a [Table<'a>],
    pool: &'a [u8],
) -> anyhow::Result<()> {
    let answer = TableBank::check(width, tables, pool);
    print_made(rt, label, &answer, &TableBank::make(width, tables, pool))
}

// The same of a bank of one table.
fn print_table<'a>(
    rt: &HostRuntime,
    label: &str,
    width: usize,
    rows: &'a [usize],
    start: usize,
    lines: usize,
    pool: &'a [u8],
) -> anyhow::Result<()> {
    print_tables(rt, label, width, &[table(rows, start, lines)], pool)
}

// How many tables a bank may hold, and which rows a table may name.
fn print_table_rows(rt: &HostRuntime) -> anyhow::Result<()> {
    let many = vec![in rt.alloc(); table(&[0, 1], 0, 0); 513]?;
    print_tables(rt, "512 tables", 2, &many[0..512], &[])?;
    print_tables(rt, "513 tables", 2, &many[0..513], &[])?;
    print_table(rt, "a table on no row", 17, &[], 0, 0, &[])?;
    print_table(
        rt,
        "a table on 16 rows",
        17,
        &[0, 1, 2, 3, 4, 5, 6, 7, 8, 9, 10, 11, 12, 13, 14, 15],
        0,
        0,
        &[],
    )?;
    print_table(
        rt,
        "a table on 17 rows",
        17,
        &[0, 1, 2, 3, 4, 5, 6, 7, 8, 9, 10, 11, 12, 13, 14, 15, 16],
        0,
        0,
        &[],
    )
}

// A row twice in a later table.
fn print_row_twice(rt: &HostRuntime) -> anyhow::Result<()> {
    print_tables(
        rt,
        "a row twice in rule 1",
        17,
        &[table(&[0, 1], 0, 0), table(&[1, 2, 1], 0, 0)],
        &[],
    )
}

// The last row below the width.
fn print_last_row(rt: &HostRuntime) -> anyhow::Result<()> {
    print_tables(
        rt,
        "row 15 of width 16",
        16,
        &[
            table(&[0, 1], 0, 0),
            table(&[0, 1], 0, 0),
            table(&[0, 15], 0, 0),
        ],
        &[],
    )
}

// A row not below the width in a later table.
fn print_row_past_width(rt: &HostRuntime) -> anyhow::Result<()> {
    print_tables(
        rt,
        "row 16 of width 16 in rule 2",
        16,
        &[
            table(&[0, 1], 0, 0),
            table(&[0, 1], 0, 0),
            table(&[0, 16], 0, 0),
        ],
        &[],
    )
}

// How many lines a table may have, over a pool of 65,536 bytes.
fn print_table_lines(rt: &HostRuntime) -> anyhow::Result<()> {
    let pool = vec![in rt.alloc(); 0u8; 65536]?;
    let bytes = pool.as_slice();
    print_table(rt, "65535 lines of one place", 2, &[0], 0, 65535, bytes)?;
    print_table(rt, "65536 lines of one place", 2, &[0], 0, 65536, bytes)?;
    print_table(rt, "32768 lines of two places", 2, &[0, 1], 0, 32768, bytes)?;
    print_table(
        rt,
        "32768 lines of two places from byte 1 on",
        2,
        &[0, 1],
        1,
        32768,
        bytes,
    )
}

// Where the lines of a table may start in a pool of 65,536 bytes.
fn print_table_starts(rt: &HostRuntime) -> anyhow::Result<()> {
    let pool = vec![in rt.alloc(); 0u8; 65536]?;
    let bytes = pool.as_slice();
    print_table(rt, "no lines, no pool", 2, &[0], 0, 0, &[])?;
    print_table(rt, "no lines at the pool's end", 2, &[0], 65536, 0, bytes)?;
    print_table(
        rt,
        "no lines one past the pool's end",
        2,
        &[0],
        65537,
        0,
        bytes,
    )?;
    print_table(rt, "the pool's last byte", 2, &[0], 65535, 1, bytes)?;
    print_table(rt, "one line at the pool's end", 2, &[0], 65536, 1, bytes)?;
    print_table(
        rt,
        "one line from the largest start",
        2,
        &[0],
        usize::MAX,
        1,
        bytes,
    )?;
    print_table(
        rt,
        "no lines from the largest start",
        2,
        &[0],
        usize::MAX,
        0,
        bytes,
    )
}

// Which bytes a table may have, and which of two faults is named.
fn print_table_bytes(rt: &HostRuntime) -> anyhow::Result<()> {
    let pool = [63u8, 255, 64, 254, 7];
    print_table(rt, "bytes 63 and 255", 2, &[0, 1], 0, 1, &pool)?;
    print_table(rt, "byte 64", 2, &[0], 2, 1, &pool)?;
    print_table(rt, "byte 254", 2, &[0], 3, 1, &pool)?;
    print_table(rt, "bytes 63, 255, 64 and 254", 2, &[0, 1], 0, 2, &pool)
}

// Bytes that no table uses are not examined.
fn print_unused_bytes(rt: &HostRuntime) -> anyhow::Result<()> {
    let pool = [63u8, 255, 64, 254, 7];
    print_tables(
        rt,
        "bad bytes outside every table",
        2,
        &[table(&[0, 1], 0, 1), table(&[0], 4, 1)],
        &pool,
    )
}

// Which of two faults of one table is named.
fn print_two_faults(rt: &HostRuntime) -> anyhow::Result<()> {
    let pool = [63u8, 255, 64, 254, 7];
    print_table(
        rt,
        "a row twice, and a line past the pool",
        2,
        &[1, 1],
        9,
        1,
        &pool,
    )?;
    print_table(
        rt,
        "a line past the pool, and a bad byte",
        2,
        &[0],
        3,
        3,
        &pool,
    )
}

// A fault in an earlier table wins: a byte.
fn print_byte_before_row(rt: &HostRuntime) -> anyhow::Result<()> {
    let pool = [63u8, 255, 64, 254, 7];
    print_tables(
        rt,
        "a bad byte in rule 1, a row twice in rule 2",
        2,
        &[
            table(&[0, 1], 0, 1),
            table(&[0], 3, 1),
            table(&[1, 1], 9, 1),
        ],
        &pool,
    )
}

// A fault in an earlier table wins: a row.
fn print_row_before_byte(rt: &HostRuntime) -> anyhow::Result<()> {
    let pool = [63u8, 255, 64, 254, 7];
    print_tables(
        rt,
        "a row twice in rule 1, a bad byte in rule 2",
        2,
        &[
            table(&[0, 1], 0, 1),
            table(&[1, 1], 9, 1),
            table(&[0], 3, 1),
        ],
        &pool,
    )
}

// Prints what the check of a bank of diagrams answers, and what the bank that is made has.
fn print_diagrams<'a>(
    rt: &HostRuntime,
    label: &str,
    width: usize,
    places: &'a [u8],
    arcs: &'a [Arc],
    diagrams: &'a [Diagram<'a>],
) -> anyhow::Result<()> {
    let answer = DiagramBank::check(width, places, arcs, diagrams);
    let bank = DiagramBank::make(width, places, arcs, diagrams);
    print_made(rt, label, &answer, &bank)
}

// Prints the bank of one diagram on the rows 0 and 1.
fn print_diagram(
    rt: &HostRuntime,
    label: &str,
    places: &[u8],
    arcs: &[Arc],
    nodes: Span,
    own: Span,
) -> anyhow::Result<()> {
    print_diagrams(rt, label, 2, places, arcs, &[diagram(&[0, 1], nodes, own)])
}

// How many diagrams a bank may hold, and one on no row.
fn print_diagram_counts(rt: &HostRuntime) -> anyhow::Result<()> {
    let many = vec![in rt.alloc(); diagram(&[0, 1], Span::new(0, 2), Span::new(0, 0)); 513]?;
    print_diagrams(rt, "512 diagrams", 2, &[0, 2], &[], &many[0..512])?;
    print_diagrams(rt, "513 diagrams", 2, &[0, 2], &[], &many[0..513])?;
    print_diagrams(
        rt,
        "a diagram on no row",
        2,
        &[0, 2],
        &[],
        &[diagram(&[], Span::new(0, 2), Span::new(0, 0))],
    )
}

// A row not below the width in a later diagram.
fn print_diagram_rows(rt: &HostRuntime) -> anyhow::Result<()> {
    print_diagrams(
        rt,
        "a diagram on row 2 of width 2",
        2,
        &[0, 2],
        &[],
        &[
            diagram(&[0, 1], Span::new(0, 2), Span::new(0, 0)),
            diagram(&[0, 2], Span::new(0, 2), Span::new(0, 0)),
        ],
    )
}

// Few nodes.
fn print_few_nodes(rt: &HostRuntime) -> anyhow::Result<()> {
    print_diagram(
        rt,
        "2 nodes",
        &[0, 2],
        &[],
        Span::new(0, 2),
        Span::new(0, 0),
    )?;
    print_diagram(rt, "1 node", &[0, 2], &[], Span::new(0, 1), Span::new(0, 0))?;
    print_diagram(
        rt,
        "no nodes",
        &[0, 2],
        &[],
        Span::new(0, 0),
        Span::new(0, 0),
    )
}

// Many arcs, of which the second equals the first.
fn print_many_arcs(rt: &HostRuntime) -> anyhow::Result<()> {
    let equal = vec![in rt.alloc(); Arc::new(0, 0, 1); 65536]?;
    print_diagram(
        rt,
        "65535 equal arcs",
        &[0, 1, 2],
        equal.as_slice(),
        Span::new(0, 3),
        Span::new(0, 65535),
    )?;
    print_diagram(
        rt,
        "65536 equal arcs",
        &[0, 1, 2],
        equal.as_slice(),
        Span::new(0, 3),
        Span::new(0, 65536),
    )
}

// Many nodes.
fn print_many_nodes(rt: &HostRuntime) -> anyhow::Result<()> {
    let mut places = vec![in rt.alloc(); 1u8; 4097]?;
    places[0] = 0;
    places[4095] = 2;
    print_diagram(
        rt,
        "4096 nodes",
        places.as_slice(),
        &[],
        Span::new(0, 4096),
        Span::new(0, 0),
    )?;
    places[4095] = 1;
    places[4096] = 2;
    print_diagram(
        rt,
        "4097 nodes",
        places.as_slice(),
        &[],
        Span::new(0, 4097),
        Span::new(0, 0),
    )
}

// Where the arcs of a diagram may lie in a pool of four.
fn print_diagram_pools(rt: &HostRuntime) -> anyhow::Result<()> {
    let places = [0u8, 1, 1, 2];
    let arcs = [
        Arc::new(0, 0, 1),
        Arc::new(0, 1, 2),
        Arc::new(1, 5, 3),
        Arc::new(2, 6, 3),
    ];
    let all = Span::new(0, 4);
    print_diagram(rt, "four nodes and four arcs", &places, &arcs, all, all)?;
    print_diagram(
        rt,
        "no arcs at the pool's end",
        &places,
        &arcs,
        all,
        Span::new(4, 0),
    )?;
    print_diagram(
        rt,
        "no arcs one past the pool's end",
        &places,
        &arcs,
        all,
        Span::new(5, 0),
    )?;
    print_diagram(
        rt,
        "arcs that pass the pool",
        &places,
        &arcs,
        all,
        Span::new(1, 4),
    )
}

// Arcs from the largest start.
fn print_arc_starts(rt: &HostRuntime) -> anyhow::Result<()> {
    let places = [0u8, 1, 1, 2];
    let arcs = [
        Arc::new(0, 0, 1),
        Arc::new(0, 1, 2),
        Arc::new(1, 5, 3),
        Arc::new(2, 6, 3),
    ];
    let all = Span::new(0, 4);
    print_diagram(
        rt,
        "one arc from the largest start",
        &places,
        &arcs,
        all,
        Span::new(usize::MAX, 1),
    )?;
    print_diagram(
        rt,
        "no arcs from the largest start",
        &places,
        &arcs,
        all,
        Span::new(usize::MAX, 0),
    )
}

// Where the nodes of a diagram may lie in a pool of four places.
fn print_node_pools(rt: &HostRuntime) -> anyhow::Result<()> {
    let places = [0u8, 1, 1, 2];
    let arcs = [
        Arc::new(0, 0, 1),
        Arc::new(0, 1, 2),
        Arc::new(1, 5, 3),
        Arc::new(2, 6, 3),
    ];
    let all = Span::new(0, 4);
    print_diagram(
        rt,
        "nodes that pass the pool",
        &places,
        &arcs,
        Span::new(1, 4),
        all,
    )?;
    print_diagram(
        rt,
        "two nodes from the largest start",
        &places,
        &arcs,
        Span::new(usize::MAX, 2),
        all,
    )?;
    print_diagram(
        rt,
        "two nodes from the largest start but one",
        &places,
        &arcs,
        Span::new(usize::MAX - 1, 2),
        all,
    )
}

// Which places the nodes of a diagram may have.
fn print_diagram_nodes(rt: &HostRuntime) -> anyhow::Result<()> {
    let pool = [9u8, 0, 2, 2, 0, 0, 2, 0, 1, 1, 1, 2, 0, 2, 1, 3];
    let none = Span::new(0, 0);
    print_diagram(
        rt,
        "places 0, 2, 2 from 0 on",
        &[0, 2, 2],
        &[],
        Span::new(0, 3),
        none,
    )?;
    print_diagram(
        rt,
        "places 0, 2, 2 from 1 on",
        &pool,
        &[],
        Span::new(1, 3),
        none,
    )?;
    print_diagram(
        rt,
        "places 0, 0, 2 from 4 on",
        &pool,
        &[],
        Span::new(4, 3),
        none,
    )?;
    print_diagram(
        rt,
        "places 0, 2 from 5 on",
        &pool,
        &[],
        Span::new(5, 2),
        none,
    )?;
    print_diagram(
        rt,
        "places 0, 1, 1 from 7 on",
        &pool,
        &[],
        Span::new(7, 3),
        none,
    )?;
    print_diagram(
        rt,
        "places 1, 2 from 10 on",
        &pool,
        &[],
        Span::new(10, 2),
        none,
    )?;
    print_diagram(
        rt,
        "places 9, 0 from 0 on",
        &pool,
        &[],
        Span::new(0, 2),
        none,
    )?;
    print_diagrams(
        rt,
        "places 0, 2, 1, 3 from 12 on",
        3,
        &pool,
        &[],
        &[diagram(&[0, 1, 2], Span::new(12, 4), none)],
    )
}

// Prints the bank of one diagram with the places 0, 1, 1, 2, and a part of a pool of arcs.
fn print_arcs(
    rt: &HostRuntime,
    label: &str,
    pool: &[Arc],
    start: usize,
    count: usize,
) -> anyhow::Result<()> {
    print_diagram(
        rt,
        label,
        &[0, 1, 1, 2],
        pool,
        Span::new(0, 4),
        Span::new(start, count),
    )
}

// Which arcs a diagram may have.
fn print_diagram_arcs(rt: &HostRuntime) -> anyhow::Result<()> {
    let early = [
        Arc::new(9, 99, 9),
        Arc::new(0, 0, 1),
        Arc::new(0, 64, 2),
        Arc::new(0, 0, 3),
        Arc::new(1, 5, 3),
        Arc::new(1, 5, 3),
        Arc::new(0, 1, 2),
        Arc::new(3, 0, 3),
    ];
    print_arcs(rt, "choice 64", &early, 1, 2)?;
    print_arcs(rt, "a target two places on", &early, 3, 1)?;
    print_arcs(rt, "one node and choice twice", &early, 4, 2)?;
    print_arcs(rt, "a node below the one before", &early, 5, 2)?;
    print_arcs(rt, "a node below one outside the diagram", &early, 6, 1)?;
    print_arcs(rt, "an arc out of the last node", &early, 6, 2)?;
    print_arcs(rt, "a bad arc outside the diagram", &early, 1, 1)?;
    let late = [
        Arc::new(0, 0, 4),
        Arc::new(4, 0, 1),
        Arc::new(0, 63, 1),
        Arc::new(0, 62, 1),
        Arc::new(0, 62, 2),
    ];
    print_arcs(rt, "a target that is no node", &late, 0, 1)?;
    print_arcs(rt, "a node that is none", &late, 1, 1)?;
    print_arcs(rt, "choice 63", &late, 2, 1)?;
    print_arcs(rt, "a choice below the one before", &late, 2, 2)?;
    print_arcs(rt, "one node and choice to two targets", &late, 3, 2)
}

// All nodes are judged before any arc.
fn print_diagram_faults(rt: &HostRuntime) -> anyhow::Result<()> {
    let arcs = [Arc::new(0, 0, 1), Arc::new(0, 64, 2)];
    print_diagram(
        rt,
        "the last node and the first arc",
        &[0, 1, 1, 2, 0, 1, 1, 1],
        &arcs,
        Span::new(4, 4),
        Span::new(1, 1),
    )
}

// Prints what a support answers and leaves in masks that all hold choice 7 before. The program of differences tells the rows by their number
// and not by their masks; one function for both would be handed that part of the line.
fn print_support<B: Bank>(
    rt: &HostRuntime,
    bank: &B,
    rule: usize,
    rows: &[u64],
    masks: usize,
) -> anyhow::Result<()> {
    let mut memory = vec![in rt.alloc(); only(7); masks]?;
    let answer = bank.support(rule, rows, &mut memory);
    println!(rt;
        "support of rule {rule} on{} with {masks} masks: {}, masks{}",
        Sets(rows),
        Answer(&answer),
        Sets(memory.as_slice())
    )?;
    Ok(())
}

// The support of the table of the lines 0, star and 3, 1.
fn print_table_support(rt: &HostRuntime) -> anyhow::Result<()> {
    let tables = [table(&[0, 1], 0, 2)];
    let bank = TableBank::make(2, &tables, &[0, 255, 3, 1]);
    println!(rt; "tables")?;
    print_support(rt, &bank, 0, &[only(3), only(0) | only(1)], 3)?;
    print_support(rt, &bank, 0, &[only(0) | only(2), only(5)], 3)?;
    print_support(rt, &bank, 0, &[only(0) | only(3), only(1) | only(2)], 2)?;
    print_support(rt, &bank, 0, &[only(0), 0], 2)?;
    print_support(rt, &bank, 1, &[only(0)], 1)?;
    print_support(rt, &bank, 0, &[only(0)], 1)?;
    print_support(rt, &bank, 0, &[only(0), only(1)], 1)
}

// The support of a table of no lines.
fn print_no_lines(rt: &HostRuntime) -> anyhow::Result<()> {
    let tables = [table(&[0, 1], 0, 0)];
    let bank = TableBank::make(2, &tables, &[]);
    println!(rt; "a table of no lines")?;
    print_support(rt, &bank, 0, &[only(0), only(1)], 3)
}

// The support of the diagram that permits 0 with 5, and 1 with 6.
fn print_diagram_support(rt: &HostRuntime) -> anyhow::Result<()> {
    let arcs = [
        Arc::new(0, 0, 1),
        Arc::new(0, 1, 2),
        Arc::new(1, 5, 3),
        Arc::new(2, 6, 3),
    ];
    let diagrams = [diagram(&[0, 1], Span::new(0, 4), Span::new(0, 4))];
    let bank = DiagramBank::make(2, &[0, 1, 1, 2], &arcs, &diagrams);
    println!(rt; "diagrams")?;
    print_support(rt, &bank, 0, &[only(0) | only(1), only(5)], 3)?;
    print_support(rt, &bank, 0, &[only(1), only(5)], 3)?;
    print_support(rt, &bank, 0, &[only(1) | only(2), only(5) | only(6)], 2)?;
    print_support(rt, &bank, 1, &[only(0)], 1)?;
    print_support(rt, &bank, 0, &[only(0)], 1)?;
    print_support(rt, &bank, 0, &[only(0), only(5)], 1)
}

// Prints the row at place 1 of a rule.
fn print_row<B: Bank>(rt: &HostRuntime, bank: &B, rule: usize) -> anyhow::Result<()> {
    println!(rt;
        "row at place 1 of rule {rule}: {}",
        NumberOr(&bank.row_at(rule, 1))
    )?;
    Ok(())
}

// Prints the pair of a bank of so many tables of width 3 and one of so many diagrams of width 2, and its pair with one difference of width 4.
fn print_pairs(rt: &HostRuntime, tables: usize, diagrams: usize) -> anyhow::Result<()> {
    let heap = rt.alloc();
    let first = vec![in heap; table(&[0, 2], 0, 0); tables]?;
    let second = vec![in heap; diagram(&[0, 1], Span::new(0, 2), Span::new(0, 0)); diagrams]?;
    let third = [Difference::new(0, 3, 0, Relation::Equal)];
    let (inner, answer) = Pair::new(
        TableBank::make(3, first.as_slice(), &[]),
        DiagramBank::make(2, &[0, 2], &[], second.as_slice()),
    );
    println!(rt; "{tables} tables and {diagrams} diagrams")?;
    print_made(rt, "the pair", &answer, &inner)?;
    print_row(rt, &inner, 0)?;
    print_row(rt, &inner, 511)?;
    let (outer, again) = Pair::new(inner, DifferenceBank::make(4, &third));
    print_made(rt, "its pair with one difference", &again, &outer)?;
    print_row(rt, &outer, 0)?;
    print_row(rt, &outer, 511)
}

// Banks of tables.
fn print_all_tables(rt: &HostRuntime) -> anyhow::Result<()> {
    print_table_rows(rt)?;
    print_row_twice(rt)?;
    print_last_row(rt)?;
    print_row_past_width(rt)?;
    print_table_lines(rt)?;
    print_table_starts(rt)?;
    print_table_bytes(rt)?;
    print_unused_bytes(rt)?;
    print_two_faults(rt)?;
    print_byte_before_row(rt)?;
    print_row_before_byte(rt)
}

// All of them.
fn run(rt: &HostRuntime) -> anyhow::Result<()> {
    print_all_tables(rt)?;
    print_diagram_counts(rt)?;
    print_diagram_rows(rt)?;
    print_few_nodes(rt)?;
    print_many_arcs(rt)?;
    print_many_nodes(rt)?;
    print_diagram_pools(rt)?;
    print_arc_starts(rt)?;
    print_node_pools(rt)?;
    print_diagram_nodes(rt)?;
    print_diagram_arcs(rt)?;
    print_diagram_faults(rt)?;
    print_table_support(rt)?;
    print_no_lines(rt)?;
    print_diagram_support(rt)?;
    print_pairs(rt, 256, 255)?;
    print_pairs(rt, 256, 256)?;
    print_pairs(rt, 257, 256)
}

fn main(rt: HostRuntime) -> anyhow::Result<()> {
    run(&rt)
}
