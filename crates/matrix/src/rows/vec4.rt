// A row is four numbers.
ghost use Rattle.matrix.specs.Rows.{row4, numbers4};

use crate::rows::Row;
use vectors::vec4::Vec4;

impl Row for Vec4 {
    ghost WIDTH = { 4 };

    ghost row = { row4 };

    ghost numbers = { numbers4 };

    const WIDTH: usize = 4;

    #[tactic(auto, unfolding(crate::specs::Rows::row4))]
    fn load(area: &[f64], at: usize) -> Vec4 {
        Vec4 {
            x: area[at],
            y: area[at + 1],
            z: area[at + 2],
            w: area[at + 3],
        }
    }

    fn store(self, area: &mut [f64], at: usize) {
        area[at] = self.x;
        area[at + 1] = self.y;
        area[at + 2] = self.z;
        area[at + 3] = self.w;
    }
}
