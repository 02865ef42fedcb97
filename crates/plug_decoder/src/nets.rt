ghost use Rattle.std.specs.Prelude.{◌≡◌, ℕ, ◌+◌, ◌*◌, ◌<◌, ◌≤◌, get_or, length};
ghost use Rattle.hw_pool.specs.Meaning.{Env};
ghost use Rattle.hw_gates.specs.Places.{Step, value_in};
ghost use Rattle.service_reg.specs.declared.service.Service.TheVariants.{Decoder};
ghost use Rattle.service_ports.specs.Ports.{decoder_ports, input_shapes, output_level, output_widths};
ghost use Rattle.plug_build.specs.Fits.{AreInputs, AreOutputs};
ghost use Rattle.plug_kit.specs.Made.{decoder_list};
ghost use Rattle.plug_decoder.specs.Machine.{claim_at, flag_of, has_value as gives_value, legal_of, row_of, unit_of, uses_a as reads_a, uses_b as reads_b, writes_of};

use crate::circuit::decoder;
use hw_pool::Pool;
use isa_table::Claim;
use plug_build::Builder;
use plug_kit::{DecoderInputs, wire_net};
use service_ports::DecoderPorts;

/// The ports of Decoder over its input, for claims, each of an entry. A claim costs at most 14 nodes.
pub(crate) fn decoder_nets(
    b: &Builder,
    pool: &mut Pool,
    w: DecoderInputs,
    rows: &[Claim],
    owners: &[u32],
) -> DecoderPorts
    requires spare { 14 * length rows.now + 23 ≤ pool.old.spare }
    requires inputs { AreInputs b.now.design b.now.entry (decoder_list w) (input_shapes Decoder) }
    requires owners { length owners.now ≡ length rows.now }
    requires numbers { (k : ℕ) → k < length rows.now → (claim_at rows.now k).row < 57 }
    requires entries { (k : ℕ) → k < length rows.now → get_or owners.now k 0 < 32 }
    ensures inputs { (decoder_ports result).inputs ≡ decoder_list w }
    ensures outputs { AreOutputs b.now.design pool.new (output_level Decoder) (decoder_ports result).outputs (output_widths Decoder) }
    ensures legal { (env : Env) → value_in env pool.new result.legal ≡ legal_of rows.now (env.wires w.word) }
    ensures row { (env : Env) → value_in env pool.new result.row ≡ row_of rows.now (env.wires w.word) }
    ensures unit { (env : Env) → value_in env pool.new result.unit ≡ unit_of rows.now owners.now (env.wires w.word) }
    ensures uses_a { (env : Env) → value_in env pool.new result.uses_a ≡ flag_of reads_a rows.now (env.wires w.word) }
    ensures uses_b { (env : Env) → value_in env pool.new result.uses_b ≡ flag_of reads_b rows.now (env.wires w.word) }
    ensures writes { (env : Env) → value_in env pool.new result.writes ≡ writes_of (env.wires w.word) (flag_of gives_value rows.now (env.wires w.word)) }
    ensures step { Step pool.old pool.new (14 * length rows.now + 23) }
{
    let word = wire_net(b, pool, w.word);
    let (told, writes) = decoder(pool, word, rows, owners);
    DecoderPorts {
        word: w.word,
        legal: told.legal,
        row: told.row,
        unit: told.unit,
        uses_a: told.uses_a,
        uses_b: told.uses_b,
        writes,
    }
}
