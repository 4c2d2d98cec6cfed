//! Worked programs. Their answers were computed outside, by rational tableaus and by the vertices.

ghost use Rattle.std.specs.Prelude.{◌≡◌, IfOk};
ghost use Rattle.mp_simplex.specs.Meeting.{HasSizes, BeginsAtZero};

use super::*;
use std::process::Abort;
use std::test::Fail;

/// The numbers of a slice.
fn numbers(alloc: Global, xs: &[i128]) -> Result<Numbers, AllocError>
    ensures { IfOk result (λ n. n ≡ xs.now) }
{
    let mut all = Vec::new(alloc);
    all.extend_from_slice(xs)?;
    Ok(Numbers::new(all))
}

/// The program of these lists, once its sizes and right sides were tested.
fn program(
    rt: &impl Abort,
    alloc: Global,
    a: &[i128],
    b: &[i128],
    c: &[i128],
) -> Result<Lp, AllocError>
    ensures sizes { IfOk result HasSizes }
    ensures right_sides { IfOk result BeginsAtZero }
{
    assert!(rt; b.len() <= 100 && c.len() <= 100);
    assert_eq!(rt; a.len(), b.len() * c.len());
    assert!(rt; none_negative(b));
    let coefficients = numbers(alloc, a)?;
    let right_sides = numbers(alloc, b)?;
    let objective = numbers(alloc, c)?;
    Ok(Lp {
        rows: b.len(),
        cols: c.len(),
        a: coefficients,
        b: right_sides,
        c: objective,
    })
}

/// A program with its optimum.
#[derive(Clone, Copy)]
struct Case<'a> {
    a: &'a [i128],
    b: &'a [i128],
    c: &'a [i128],
    primal: &'a [i128],
    primal_den: i128,
    dual: &'a [i128],
    dual_den: i128,
    num: i128,
    den: i128,
    pivots: u32,
}

#[tactic(auto, using(crate::proofs::MaximiseLemmas::optimum_fits))]
/// Finds the optimum with just enough pivots, checks it, and is stopped one pivot earlier.
fn solves(rt: &impl Abort, alloc: Global, case: &Case) -> Result<(), Fail> {
    let lp = program(rt, alloc, case.a, case.b, case.c)?;
    let Ok(optimum) = maximise(alloc, &lp, case.pivots) else {
        return Err("no optimum".into());
    };
    assert_eq!(rt; optimum.primal.as_slice(), case.primal);
    assert_eq!(rt; optimum.primal_den, case.primal_den);
    assert_eq!(rt; optimum.dual.as_slice(), case.dual);
    assert_eq!(rt; optimum.dual_den, case.dual_den);
    assert_eq!(rt; optimum.value.num(), case.num);
    assert_eq!(rt; optimum.value.den(), case.den);
    assert_eq!(rt; optimum.pivots, case.pivots);
    assert_eq!(rt; check_optimum(&lp, &optimum), Some(true));
    if case.pivots > 0 {
        let stopped = maximise(alloc, &lp, case.pivots - 1);
        assert!(rt; matches!(&stopped, Err(LpFault::PivotLimit)));
    }
    Ok(())
}

#[test]
fn finds_the_optimum(rt: HostRuntime) -> Result<(), Fail> {
    let alloc = rt.alloc();
    // One column a row.
    solves(
        &rt,
        alloc,
        &Case {
            a: &[2, 0, 0, 2],
            b: &[1, 1],
            c: &[8, 8],
            primal: &[1, 1],
            primal_den: 2,
            dual: &[4, 4],
            dual_den: 1,
            num: 8,
            den: 1,
            pivots: 2,
        },
    )?;
    // A right side of 0: one pivot that gains nothing.
    solves(
        &rt,
        alloc,
        &Case {
            a: &[1],
            b: &[0],
            c: &[1],
            primal: &[0],
            primal_den: 1,
            dual: &[1],
            dual_den: 1,
            num: 0,
            den: 1,
            pivots: 1,
        },
    )?;
    // Beale's program (1955), in hundredths: without the rule it cycles.
    solves(
        &rt,
        alloc,
        &Case {
            a: &[25, -6000, -4, 900, 50, -9000, -2, 300, 0, 0, 1, 0],
            b: &[0, 0, 1],
            c: &[75, -15000, 2, -600],
            primal: &[1, 0, 25, 0],
            primal_den: 25,
            dual: &[0, 3, 10],
            dual_den: 2,
            num: 5,
            den: 1,
            pivots: 6,
        },
    )?;
    // The program of Klee and Minty (1972) in three columns.
    solves(
        &rt,
        alloc,
        &Case {
            a: &[1, 0, 0, 4, 1, 0, 8, 4, 1],
            b: &[5, 25, 125],
            c: &[4, 2, 1],
            primal: &[0, 0, 125],
            primal_den: 1,
            dual: &[0, 0, 1],
            dual_den: 1,
            num: 125,
            den: 1,
            pivots: 5,
        },
    )?;
    // Two right sides of 0.
    solves(
        &rt,
        alloc,
        &Case {
            a: &[1, -1, 0, -1, 1, 1, 1, 1, 1],
            b: &[0, 0, 6],
            c: &[2, 1, 3],
            primal: &[3, 3, 0],
            primal_den: 1,
            dual: &[4, 3, 3],
            dual_den: 2,
            num: 9,
            den: 1,
            pivots: 3,
        },
    )?;
    // Equal ratios, and equal entries of the objective.
    solves(
        &rt,
        alloc,
        &Case {
            a: &[1, 1, 1, 2, 2, 1],
            b: &[1, 1, 2],
            c: &[1, 1],
            primal: &[1, 0],
            primal_den: 1,
            dual: &[1, 0, 0],
            dual_den: 1,
            num: 1,
            den: 1,
            pivots: 1,
        },
    )?;
    // An optimum in fractions.
    solves(
        &rt,
        alloc,
        &Case {
            a: &[3, 1, 2, 1, 4, 1, 2, 3, 5],
            b: &[7, 9, 11],
            c: &[5, 4, 6],
            primal: &[51, 67, 23],
            primal_den: 38,
            dual: &[43, 7, 27],
            dual_den: 38,
            num: 661,
            den: 38,
            pivots: 3,
        },
    )?;
    // Negative coefficients.
    solves(
        &rt,
        alloc,
        &Case {
            a: &[-2, 3, 4, -1, 1, 1],
            b: &[6, 8, 7],
            c: &[1, 2],
            primal: &[3, 4],
            primal_den: 1,
            dual: &[9, 7, 0],
            dual_den: 10,
            num: 11,
            den: 1,
            pivots: 2,
        },
    )?;
    // Nothing to gain.
    solves(
        &rt,
        alloc,
        &Case {
            a: &[1, 1],
            b: &[5],
            c: &[-3, -1],
            primal: &[0, 0],
            primal_den: 1,
            dual: &[0],
            dual_den: 1,
            num: 0,
            den: 1,
            pivots: 0,
        },
    )?;
    // No columns.
    solves(
        &rt,
        alloc,
        &Case {
            a: &[],
            b: &[1, 1],
            c: &[],
            primal: &[],
            primal_den: 1,
            dual: &[0, 0],
            dual_den: 1,
            num: 0,
            den: 1,
            pivots: 0,
        },
    )?;
    // No rows.
    solves(
        &rt,
        alloc,
        &Case {
            a: &[],
            b: &[],
            c: &[-1, 0],
            primal: &[0, 0],
            primal_den: 1,
            dual: &[],
            dual_den: 1,
            num: 0,
            den: 1,
            pivots: 0,
        },
    )?;
    Ok(())
}

/// A program of 24 columns and 16 rows, which takes 38 pivots.
#[test]
fn finds_an_optimum_of_24_columns(rt: HostRuntime) -> Result<(), Fail> {
    let alloc = rt.alloc();
    let mut a = Vec::new(alloc);
    for i in 0..16u32 {
        for k in 0..24u32 {
            let held = (7 * i + 5 * k) % 6 == 0 || (i + 2 * k) % 6 == 1;
            let coefficient = if held { 1 + (i * k + i + k) % 9 } else { 0 };
            a.push(coefficient as i128)?;
        }
    }
    let mut c = Vec::new(alloc);
    for k in 0..24u32 {
        c.push((37 * k % 101 + 1) as i128)?;
    }
    solves(
        &rt,
        alloc,
        &Case {
            a: a.as_slice(),
            b: &[1; 16],
            c: c.as_slice(),
            primal: &[
                0, 0, 105, 0, 0, 0, 0, 0, 7, 0, 0, 0, 0, 24, 0, 42, 144, 0, 51, 0, 0, 84, 0, 0,
            ],
            primal_den: 1008,
            dual: &[
                0, 2884, 7280, 77, 0, 0, 0, 6965, 0, 3283, 5832, 7980, 0, 0, 0, 0,
            ],
            dual_den: 1008,
            num: 34301,
            den: 1008,
            pivots: 38,
        },
    )
}

#[test]
fn finds_a_ray(rt: HostRuntime) -> Result<(), Fail> {
    let alloc = rt.alloc();
    let lp = program(&rt, alloc, &[-1], &[1], &[1])?;
    let Err(LpFault::Unbounded { ray }) = maximise(alloc, &lp, 0) else {
        return Err("no ray".into());
    };
    assert_eq!(rt; ray.as_slice(), [1].as_slice());
    let lp = program(&rt, alloc, &[-3, 2, 1, -2], &[4, 5], &[1, 0])?;
    let Err(LpFault::Unbounded { ray }) = maximise(alloc, &lp, 1) else {
        return Err("no ray".into());
    };
    assert_eq!(rt; ray.as_slice(), [2, 1].as_slice());
    let lp = program(&rt, alloc, &[], &[], &[0, 2])?;
    let Err(LpFault::Unbounded { ray }) = maximise(alloc, &lp, 0) else {
        return Err("no ray".into());
    };
    assert_eq!(rt; ray.as_slice(), [0, 1].as_slice());
    Ok(())
}

/// How many pivots were done when a number exceeded 128 bits, if one did.
fn passed_after(
    rt: &impl Abort,
    alloc: Global,
    a: &[i128],
    b: &[i128],
    c: &[i128],
) -> Result<Option<u32>, Fail> {
    let lp = program(rt, alloc, a, b, c)?;
    match maximise(alloc, &lp, 9) {
        Err(LpFault::Overflow { pivots }) => Ok(Some(pivots)),
        _ => Ok(None),
    }
}

#[test]
fn stops_where_a_number_passes(rt: HostRuntime) -> Result<(), Fail> {
    let alloc = rt.alloc();
    let great: i128 = 1 << 126;
    assert_eq!(rt; passed_after(&rt, alloc, &[3], &[1], &[great])?, Some(0));
    assert_eq!(rt;
        passed_after(&rt, alloc, &[1], &[1], &[i128::MIN])?,
        Some(0)
    );
    assert_eq!(rt;
        passed_after(&rt, alloc, &[1, 0, 0, 3], &[1, 1], &[1, great])?,
        Some(1)
    );
    // Only the common denominator of the two values passes.
    let (two, three) = (1 << 100, 42391158275216203514294433201);
    assert_eq!(rt;
        passed_after(&rt, alloc, &[two, 0, 0, three], &[1, 1], &[two, three])?,
        Some(2)
    );
    assert_eq!(rt;
        passed_after(&rt, alloc, &[2, 0, 0, 3], &[1, 1], &[2, 3])?,
        None
    );
    Ok(())
}

/// The check of 8x + 8y under 2x ≤ 1 and 2y ≤ 1 by these sides.
fn checks(
    rt: &impl Abort,
    alloc: Global,
    primal: [i128; 2],
    primal_den: i128,
    dual: [i128; 2],
    dual_den: i128,
    value: Frac,
) -> Result<Option<bool>, Fail> {
    let lp = program(rt, alloc, &[2, 0, 0, 2], &[1, 1], &[8, 8])?;
    let optimum = Optimum {
        primal: Numbers::new(Vec::from_array(alloc, primal)?),
        primal_den,
        dual: Numbers::new(Vec::from_array(alloc, dual)?),
        dual_den,
        value,
        pivots: 0,
    };
    assert!(rt; primal_den >= 1 && dual_den >= 1);
    assert_eq!(rt; lp.rows, optimum.dual.as_slice().len());
    assert_eq!(rt; lp.cols, optimum.primal.as_slice().len());
    Ok(check_optimum(&lp, &optimum))
}

#[test]
fn checks_both_sides(rt: HostRuntime) -> Result<(), Fail> {
    let alloc = rt.alloc();
    let value = Frac::new(8, 1);
    assert_eq!(rt;
        checks(&rt, alloc, [1, 1], 2, [4, 4], 1, value)?,
        Some(true)
    );
    assert_eq!(rt;
        checks(&rt, alloc, [3, 3], 6, [8, 8], 2, value)?,
        Some(true)
    );
    // A row above its right side, and a column below its objective, each with the value 8.
    assert_eq!(rt;
        checks(&rt, alloc, [2, 0], 2, [4, 4], 1, value)?,
        Some(false)
    );
    assert_eq!(rt;
        checks(&rt, alloc, [1, 1], 2, [3, 5], 1, value)?,
        Some(false)
    );
    // A negative number on either side.
    assert_eq!(rt;
        checks(&rt, alloc, [3, -1], 2, [4, 4], 1, value)?,
        Some(false)
    );
    assert_eq!(rt;
        checks(&rt, alloc, [1, 1], 2, [9, -1], 1, value)?,
        Some(false)
    );
    // Another value on either side.
    assert_eq!(rt;
        checks(&rt, alloc, [1, 0], 2, [4, 4], 1, value)?,
        Some(false)
    );
    assert_eq!(rt;
        checks(&rt, alloc, [1, 1], 2, [4, 5], 1, value)?,
        Some(false)
    );
    assert_eq!(rt;
        checks(&rt, alloc, [1, 1], 2, [4, 4], 1, Frac::new(7, 1))?,
        Some(false)
    );
    // A sum exceeds 128 bits, though a side is not feasible.
    assert_eq!(rt;
        checks(&rt, alloc, [-1, 1], 2, [4, i128::MAX], 1, value)?,
        None
    );
    assert_eq!(rt;
        checks(&rt, alloc, [i128::MAX, 0], 2, [4, 4], 1, value)?,
        None
    );
    Ok(())
}
