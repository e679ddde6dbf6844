// basis.rs's `de_casteljau_n` and derivative.rs's `derivative_n`, of the heights of six points.
// Not one generic with that of points: each has its own definition in specs/, so every call would need a law from the generic's to it.
ghost use Rattle.std.specs.Prelude.{◌≡◌};
ghost use Rattle.quintic.specs.Numbers.{number2, number3, number4, number5, number6, derivative6_of};

// Six heights.
#[derive(Clone, Copy)]
pub struct Six {
    pub y1: f64,
    pub y2: f64,
    pub y3: f64,
    pub y4: f64,
    pub y5: f64,
    pub y6: f64,
}

// Five heights.
#[derive(Clone, Copy)]
pub struct Five {
    pub y1: f64,
    pub y2: f64,
    pub y3: f64,
    pub y4: f64,
    pub y5: f64,
}

// The number at t between y1 and y2.
pub fn de_casteljau2(t: f64, y1: f64, y2: f64) -> f64
    ensures { result ≡ (number2 t y1 y2).val }
{
    y1 * (1.0 - t) + y2 * t
}

// de Casteljau's algorithm for three numbers.
pub fn de_casteljau3(t: f64, y1: f64, y2: f64, y3: f64) -> f64
    ensures { result ≡ (number3 t y1 y2 y3).val }
{
    let yn1 = de_casteljau2(t, y1, y2);
    let yn2 = de_casteljau2(t, y2, y3);
    de_casteljau2(t, yn1, yn2)
}

// de Casteljau's algorithm for four numbers.
pub fn de_casteljau4(t: f64, y1: f64, y2: f64, y3: f64, y4: f64) -> f64
    ensures { result ≡ (number4 t y1 y2 y3 y4).val }
{
    let yn1 = de_casteljau2(t, y1, y2);
    let yn2 = de_casteljau2(t, y2, y3);
    let yn3 = de_casteljau2(t, y3, y4);
    de_casteljau3(t, yn1, yn2, yn3)
}

// de Casteljau's algorithm for five numbers.
pub fn de_casteljau5(t: f64, h: Five) -> f64
    ensures { result ≡ (number5 t h).val }
{
    let yn1 = de_casteljau2(t, h.y1, h.y2);
    let yn2 = de_casteljau2(t, h.y2, h.y3);
    let yn3 = de_casteljau2(t, h.y3, h.y4);
    let yn4 = de_casteljau2(t, h.y4, h.y5);
    de_casteljau4(t, yn1, yn2, yn3, yn4)
}

// de Casteljau's algorithm for six numbers.
pub fn de_casteljau6(t: f64, h: Six) -> f64
    ensures { result ≡ (number6 t h).val }
{
    let y1 = de_casteljau2(t, h.y1, h.y2);
    let y2 = de_casteljau2(t, h.y2, h.y3);
    let y3 = de_casteljau2(t, h.y3, h.y4);
    let y4 = de_casteljau2(t, h.y4, h.y5);
    let y5 = de_casteljau2(t, h.y5, h.y6);
    de_casteljau5(t, Five { y1, y2, y3, y4, y5 })
}

// The heights of the derivative: the differences of the six, times five.
pub fn derivative6(h: Six) -> Five
    ensures { result ≡ (derivative6_of h).val }
{
    Five {
        y1: (h.y2 - h.y1) * 5.0,
        y2: (h.y3 - h.y2) * 5.0,
        y3: (h.y4 - h.y3) * 5.0,
        y4: (h.y5 - h.y4) * 5.0,
        y5: (h.y6 - h.y5) * 5.0,
    }
}
