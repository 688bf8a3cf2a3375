// A block is sixteen numbers, column by column.
ghost use Rattle.matrix.specs.Rows.{block16, numbers16};

use crate::rows::Row;
use vectors::mat4::Mat4;
use vectors::vec4::Vec4;

impl Row for Mat4 {
    ghost WIDTH = { 16 };

    ghost row = { block16 };

    ghost numbers = { numbers16 };

    const WIDTH: usize = 16;

    #[tactic(auto, unfolding(crate::specs::Rows::block16))]
    fn load(area: &[f64], at: usize) -> Mat4 {
        Mat4 {
            c0: Vec4::load(area, at),
            c1: Vec4::load(area, at + 4),
            c2: Vec4::load(area, at + 8),
            c3: Vec4::load(area, at + 12),
        }
    }

    fn store(self, area: &mut [f64], at: usize) {
        self.c0.store(area, at);
        self.c1.store(area, at + 4);
        self.c2.store(area, at + 8);
        self.c3.store(area, at + 12);
    }
}
