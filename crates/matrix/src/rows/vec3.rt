// A vector is three numbers.
ghost use Rattle.matrix.specs.Rows.{row3, numbers3};

use crate::rows::Row;
use vectors::vec3::Vec3;

impl Row for Vec3 {
    ghost WIDTH = { 3 };

    ghost row = { row3 };

    ghost numbers = { numbers3 };

    const WIDTH: usize = 3;

    #[tactic(auto, unfolding(crate::specs::Rows::row3))]
    fn load(area: &[f64], at: usize) -> Vec3 {
        Vec3 {
            x: area[at],
            y: area[at + 1],
            z: area[at + 2],
        }
    }

    fn store(self, area: &mut [f64], at: usize) {
        area[at] = self.x;
        area[at + 1] = self.y;
        area[at + 2] = self.z;
    }
}
